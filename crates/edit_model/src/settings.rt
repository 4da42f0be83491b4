//! What a command finds set, and why an edit is refused.

ghost use Rattle.std.specs.Prelude.{◌≡◌};

use point_order::dom::Chars;
use std::alloc::AllocError;
use thiserror::Error;

/// The override of a command (HTML Editing APIs, "state override" and "value override").
#[derive(Drop)]
pub enum Setting {
    /// The state override true.
    On,
    /// The state override false.
    Off,
    /// A value override.
    Text { value: Chars },
    /// No override.
    Absent,
}

impl Clone for Setting {
    ghost is_clone = { λ a b. b ≡ a };

    fn clone(&self) -> Result<Setting, AllocError> {
        Ok(match self {
            Setting::On => Setting::On,
            Setting::Off => Setting::Off,
            Setting::Text { value } => Setting::Text {
                value: value.clone()?,
            },
            Setting::Absent => Setting::Absent,
        })
    }
}

/// Flags of the document that commands read and three commands set.
#[derive(Clone, Copy, PartialEq, Eq, Debug)]
pub struct Flags {
    /// The CSS styling flag.
    pub css_styling: bool,
    /// The default single-line container is p; else it is div.
    pub paragraphs: bool,
}

/// Why an editing call gave up. Only rolling back is left to the caller then.
#[derive(Clone, Copy, PartialEq, Eq, Debug, Error)]
pub enum EditFault {
    /// A label that isn't below the cap would have been drawn.
    #[error("no label is left below the cap")]
    Full = 1,
    /// There is no memory for it.
    #[error("out of memory")]
    Memory = 2,
}

impl From<AllocError> for EditFault {
    ghost use Rattle.std.specs.Prelude.{◌≡◌};
    ghost use Rattle.edit_model.specs.declared.settings.EditFault.TheVariants.{Memory};

    ghost from_gives = { λ _ fault. fault ≡ Memory };

    fn from(_: AllocError) -> EditFault {
        EditFault::Memory
    }
}
