//! A decoder of UTF-8 that goes byte by byte (Encoding Standard, "UTF-8 decoder").

ghost use Rattle.std.specs.Prelude.{◌≡◌, ◌≤◌, ◌<◌, IfSome};
ghost use Rattle.std.specs.Option.{option_map};
ghost use Rattle.page_grammar.specs.Decoder as decoder;
ghost use Rattle.page_read.specs.Decoding.{pending_of, decoded_of, IsSoundPending, IsSoundDecoded};

/// A character of which some bytes have come: its bits so far, how many bytes follow the next one,
/// and the bounds of the next one (Encoding Standard, "UTF-8 decoder").
#[derive(Drop, Clone, Copy)]
pub(crate) struct Pending {
    bits: u32,
    after: u8,
    low: u8,
    high: u8,
}

#[derive(Drop, Clone, Copy)]
pub(crate) enum Decoded {
    Bad,
    Part(Pending),
    Whole(char),
}

fn part(bits: u32, after: u8, low: u8, high: u8) -> Decoded
    ensures { result
        ≡ Decoded.Part (record { bits = bits; after = after; low = low; high = high }) }
{
    Decoded::Part(Pending {
        bits,
        after,
        low,
        high,
    })
}

// The first byte of a character of three bytes: none is written longer than it has to be, and none
// is a surrogate.
fn lead_of_three(byte: u8) -> Decoded
    requires low { 224 ≤ byte }
    requires high { byte < 240 }
    ensures value { decoded_of result ≡ decoder.lead byte }
    ensures sound { IsSoundDecoded result }
{
    let low = if byte == 224 { 160 } else { 128 };
    let high = if byte == 237 { 159 } else { 191 };
    part(byte as u32 - 224, 1, low, high)
}

// The first byte of a character of four bytes: none is written longer than it has to be, and none
// is past U+10FFFF.
fn lead_of_four(byte: u8) -> Decoded
    requires low { 240 ≤ byte }
    requires high { byte < 245 }
    ensures value { decoded_of result ≡ decoder.lead byte }
    ensures sound { IsSoundDecoded result }
{
    let low = if byte == 240 { 144 } else { 128 };
    let high = if byte == 244 { 143 } else { 191 };
    part(byte as u32 - 240, 2, low, high)
}

fn lead(byte: u8) -> Decoded
    ensures value { decoded_of result ≡ decoder.lead byte }
    ensures sound { IsSoundDecoded result }
{
    if byte < 128 {
        Decoded::Whole(byte as char)
    } else if byte < 194 {
        Decoded::Bad
    } else if byte < 224 {
        part(byte as u32 - 192, 0, 128, 191)
    } else if byte < 240 {
        lead_of_three(byte)
    } else if byte < 245 {
        lead_of_four(byte)
    } else {
        Decoded::Bad
    }
}

fn continued(pending: Pending, byte: u8) -> Decoded
    requires { IsSoundPending pending }
    ensures value { decoded_of result ≡ decoder.continued (pending_of pending) byte }
    ensures sound { IsSoundDecoded result }
{
    if byte < pending.low || pending.high < byte {
        return Decoded::Bad;
    }
    let bits = pending.bits * 64 + (byte as u32 - 128);
    if pending.after > 0 {
        return part(bits, pending.after - 1, 128, 191);
    }
    match char::from_u32(bits) {
        Some(c) => Decoded::Whole(c),
        None => Decoded::Bad,
    }
}

/// The next byte, between characters or inside one.
pub(crate) fn decode(pending: Option<Pending>, byte: u8) -> Decoded
    requires { IfSome pending (λ p. IsSoundPending p) }
    ensures value { decoded_of result ≡ decoder.decode (option_map pending_of pending) byte }
    ensures sound { IsSoundDecoded result }
{
    match pending {
        None => lead(byte),
        Some(pending) => continued(pending, byte),
    }
}
