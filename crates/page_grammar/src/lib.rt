//! What a page is: which bytes stand for which children, and where and why other bytes are refused.
//!
//! The definitions stand in specs/: the relation between characters and children (`Page`), the same
//! of bytes (`Bytes`), a machine that decides it (`Machine`, `Decoder`, `Reader`), the fault that
//! it computes (`Kind`), what that fault means (`Rows`, `Tokens`), what reading a page answers
//! (`Reading`), and the document that it makes (`Nodes`, `TreeConstruction`). Each function of this
//! file has an empty body: its contract is a law about the definitions. The module `classes` has
//! the tests of characters that readers of tags share.
#![tactic(auto)]

ghost use Rattle.std.specs.Prelude.{◌≡◌, ◌≤◌, ◌<◌, ◌↔◌, ◌++◌, ℕ, true, List, [], ◌∷◌, Option, Some, None, length, codes};
ghost use Rattle.std.specs.List.{range_with_len};
ghost use Rattle.std.proofs.Math.Utf8.{scalar, scalars, encode, encodes};
ghost use Rattle.page_grammar.specs.Page.{Siblings, Nil, TextNode, CommentNode, ElementNode, Page, size, labels, ReachesLabel};
ghost use Rattle.page_grammar.specs.Machine.{Machine, run, start, step, events, IsEnd, emitted, quiet, after_emitting, attribute};
ghost use Rattle.page_grammar.specs.Reader.{Reader, begin, read_byte, read_bytes};
ghost use Rattle.page_grammar.specs.Bytes.{PageBytes, BeginsPage};
ghost use Rattle.page_grammar.specs.Kind.{Kind, page_limit, kind_of_byte, kind_at, page_fault, text_fault, refusal, refused_place, TooLong, Unclosed, NotUtf8, TooDeep, Full, UnsupportedElement, RepeatedAttribute, UnknownReference, StrayEnd, BadAttribute, BadTag};
ghost use Rattle.page_grammar.specs.Rows.{IsFault};
ghost use Rattle.page_grammar.specs.TreeConstruction.{construct_all, initial_tree, whole_tree};
ghost use Rattle.page_grammar.specs.Reading.{Reading, Children, Refused, page_reading, IsReading};

pub mod classes;

pub use dom_model as dom;
pub use html_names as element_names;

/// The machine reads each page to its end, and emits its children.
pub fn pages_are_read()
    ensures { (d c : ℕ) (s : List ℕ) (f : Siblings) → Page d c s f → (m : Machine)
        × (run c (start d) s ≡ Some m) × IsEnd m × (emitted m ≡ events f) }
{}

/// What the machine reads to its end is a page, whose children it has emitted.
pub fn what_is_read_is_a_page()
    ensures { (d c : ℕ) (s : List ℕ) (m : Machine) → run c (start d) s ≡ Some m → IsEnd m
        → (f : Siblings)
        × Page d c s f × (emitted m ≡ events f) }
{}

/// The machine only adds to what it has emitted, and doesn't look at it.
pub fn steps_only_tell_more()
    ensures step { (c : ℕ) (m : Machine) (x : ℕ) → step c m x
        ≡ after_emitting m.out (step c (quiet m) x) }
    ensures emitted { (m : Machine) → emitted m ≡ m.out ++ emitted (quiet m) }
{}

/// A page has one tree.
pub fn one_tree()
    ensures { (d c : ℕ) (s : List ℕ) (f g : Siblings) → PageBytes d c s f → PageBytes d c s g → f
        ≡ g }
{}

/// Its labels are those from 1 on, in tree order. So a tree in which some label isn't below `k` has
/// a node whose label is `k`, unless `k` is 0.
pub fn labels_in_tree_order()
    ensures drawn { (d c : ℕ) (s : List ℕ) (f : Siblings) → PageBytes d c s f → labels f
        ≡ range_with_len 1 (size f) }
    ensures reached { (d c k : ℕ) (s : List ℕ) (f : Siblings) → PageBytes d c s f → ReachesLabel k f
        ↔ ((0 < size f) × (k ≤ size f)) }
{}

/// What begins a page within the limits begins one within wider limits.
pub fn wider_limits()
    ensures { (d c e a : ℕ) (p : List ℕ) → d ≤ e → c ≤ a → BeginsPage d c p → BeginsPage e a p }
{}

/// The reader goes on exactly as long as some page does.
pub fn reads_what_begins_a_page()
    ensures reads { (d c : ℕ) (p : List ℕ) → BeginsPage d c p → (r : Reader)
        × (read_bytes c (begin d) p ≡ Some r) }
    ensures begins { (d c : ℕ) (p : List ℕ) (r : Reader) → read_bytes c (begin d) p ≡ Some r
        → BeginsPage d c p }
{}

/// After whole characters a fault is what the machine that has read them meets in the rest.
pub fn faults_after_characters()
    ensures { (d c : ℕ) (cs rest : List ℕ) (m : Machine) → scalars cs ≡ true → run c (start d) cs
        ≡ Some m
        → text_fault d c (encodes cs ++ rest) ≡ refusal c m (length (encodes cs)) rest }
{}

/// Where the machine refuses the next character, that character decides the place and the kind.
pub fn fault_at_a_refused_character()
    ensures { (c : ℕ) (m : Machine) (n x : ℕ) (more : List ℕ) → scalar x ≡ true → step c m x ≡ None
        → refusal c m n (encode x ++ more) ≡ Some (refused_place c m n x, kind_at m x) }
{}

/// The fault that is computed is the page's: there is none exactly where the bytes are a page
/// within depth, cap and length; else its place is the longest prefix that begins some page, and
/// its kind the first row of the table that holds there.
pub fn the_fault_is_the_pages()
    ensures { (d c : ℕ) (s : List ℕ) → IsFault d c s (page_fault d c s) }
{}

/// And it is the only one.
pub fn no_other_fault()
    ensures { (d c : ℕ) (s : List ℕ) (fault : Option (ℕ × Kind)) → IsFault d c s fault → fault
        ≡ page_fault d c s }
{}

/// What reading a page is computed to answer: its children, or the place and the kind of its fault,
/// and nothing else is so.
pub fn the_reading_is_the_pages()
    ensures is { (d c : ℕ) (s : List ℕ) → IsReading d c s (page_reading d c s) }
    ensures only { (d c : ℕ) (s : List ℕ) (reading : Reading) → IsReading d c s reading → reading
        ≡ page_reading d c s }
{}

/// What a reader of bytes finds is the reading of the whole: where there are too many bytes, where
/// it can't read one, and where the bytes end before the page or with it.
pub fn a_reader_finds_the_reading()
    ensures too_long { (d c : ℕ) (s : List ℕ) → page_limit < length s → page_reading d c s
        ≡ Refused page_limit TooLong }
    ensures stopped { (d c : ℕ) (p : List ℕ) (b : ℕ) (t : List ℕ) (r : Reader)
        → length (p ++ b ∷ t) ≤ page_limit → read_bytes c (begin d) p ≡ Some r → read_byte c r b
        ≡ None
        → page_reading d c (p ++ b ∷ t) ≡ Refused (length p) (kind_of_byte r b) }
    ensures unclosed { (d c : ℕ) (s : List ℕ) (r : Reader) → length s ≤ page_limit
        → read_bytes c (begin d) s
        ≡ Some r → (r.part ≡ None → IsEnd r.machine → ⊥) → page_reading d c s
        ≡ Refused (length s) Unclosed }
    ensures ended { (d c : ℕ) (s : List ℕ) (r : Reader) → length s ≤ page_limit
        → read_bytes c (begin d) s
        ≡ Some r → r.part ≡ None → IsEnd r.machine → (f : Siblings)
        × (page_reading d c s ≡ Children f)
        × PageBytes d c s f × (emitted r.machine ≡ events f) }
{}

/// A document to which each emitted node is added at the end of the innermost open element ends as
/// the page's.
pub fn constructed_events_are_the_document()
    ensures { (d c : ℕ) (s : List ℕ) (f : Siblings) → PageBytes d c s f
        → construct_all (events f) initial_tree ≡ whole_tree f }
{}

/// Faults of example pages.
pub fn worked_faults()
    ensures unclosed { page_fault 200 2000000 (codes "<div><p") ≡ Some (7, Unclosed) }
    ensures part { page_fault 200 2000000 (codes "<div><p a='1'>x</p></di") ≡ Some (23, Unclosed) }
    ensures reference { page_fault 200 2000000 (codes "&am") ≡ Some (3, Unclosed) }
    ensures short_comment { page_fault 200 2000000 (codes "<!-->") ≡ Some (5, Unclosed) }
    ensures half_character { page_fault 200 2000000 (195 ∷ []) ≡ Some (1, Unclosed) }
    ensures repeated { page_fault 200 2000000 (codes "<p a='1' A='2'>x</p>")
        ≡ Some (10, RepeatedAttribute) }
    ensures bare { page_fault 200 2000000 (codes "<p a a/>") ≡ Some (6, RepeatedAttribute) }
    ensures quote { page_fault 200 2000000 (codes "<p a a'>") ≡ Some (6, RepeatedAttribute) }
    ensures stray { page_fault 200 2000000 (codes "<div></p></div>") ≡ Some (7, StrayEnd) }
    ensures other { page_fault 200 2000000 (codes "<p></q>") ≡ Some (5, StrayEnd) }
    ensures none_open { page_fault 200 2000000 (codes "</p>") ≡ Some (1, StrayEnd) }
    ensures copy { page_fault 200 2000000 (codes "&copy;") ≡ Some (1, UnknownReference) }
    ensures zero { page_fault 200 2000000 (codes "<p>&#0;</p>") ≡ Some (6, UnknownReference) }
    ensures large { page_fault 200 2000000 (codes "&#x110000;") ≡ Some (8, UnknownReference) }
    ensures surrogate { page_fault 200 2000000 (codes "&#xD800;") ≡ Some (7, UnknownReference) }
    ensures in_value { page_fault 200 2000000 (codes "<p a='&x'>") ≡ Some (7, UnknownReference) }
    ensures script { page_fault 200 2000000 (codes "<script></script>")
        ≡ Some (7, UnsupportedElement) }
    ensures script_solidus { page_fault 200 2000000 (codes "<script/")
        ≡ Some (7, UnsupportedElement) }
    ensures solidus { page_fault 200 2000000 (codes "<p/>") ≡ Some (2, BadAttribute) }
    ensures equals { page_fault 200 2000000 (codes "<p =>") ≡ Some (3, BadAttribute) }
    ensures joined { page_fault 200 2000000 (codes "<p a='1'b='2'>") ≡ Some (8, BadAttribute) }
    ensures control { page_fault 200 2000000 (codes "<p a" ++ 194 ∷ 128 ∷ codes "='1'>")
        ≡ Some (5, BadAttribute) }
    ensures digit { page_fault 200 2000000 (codes "<1") ≡ Some (1, BadTag) }
    ensures wide_tag { page_fault 200 2000000 (60 ∷ 195 ∷ 169 ∷ []) ≡ Some (1, BadTag) }
    ensures bad_byte { page_fault 200 2000000 (255 ∷ []) ≡ Some (0, NotUtf8) }
    ensures bad_second { page_fault 200 2000000 (224 ∷ 128 ∷ 128 ∷ []) ≡ Some (1, NotUtf8) }
    ensures deep_element { page_fault 2 2000000 (codes "<b><b><i") ≡ Some (7, TooDeep) }
    ensures deep_text { page_fault 2 2000000 (codes "<b><b>x") ≡ Some (6, TooDeep) }
    ensures deep_wide_text { page_fault 2 2000000 (codes "<b><b>" ++ 195 ∷ 169 ∷ [])
        ≡ Some (6, TooDeep) }
    ensures deep_comment { page_fault 2 2000000 (codes "<b><b><!") ≡ Some (7, TooDeep) }
    ensures deep_nothing { page_fault 0 2000000 (codes "<b>") ≡ Some (0, TooDeep) }
    ensures not_deep { page_fault 2 2000000 (codes "<b><b><?") ≡ Some (7, BadTag) }
    ensures full { page_fault 200 3 (codes "<p>x</p><p></p>") ≡ Some (8, Full) }
    ensures full_text { page_fault 200 2 (codes "<p>x</p>") ≡ Some (3, Full) }
    ensures page { page_fault 200 2000000
        (codes "<scripty A = 'x>&lt;' b></scriptY ><!--a-->b--><br/>") ≡ None }
    ensures wide_page { page_fault 200 2000000 (codes "<p " ++ 195 ∷ 169 ∷ codes ">"
        ++ 240 ∷ 159 ∷ 152 ∷ 128 ∷ codes "</p>") ≡ None }
    ensures at_depth { page_fault 2 2000000 (codes "<b><b></b></b>") ≡ None }
    ensures at_cap { page_fault 200 4 (codes "<p>x</p><br>") ≡ None }
{}

/// Readings of example pages.
pub fn worked_readings()
    ensures nothing { page_reading 200 2000000 [] ≡ Children Nil }
    ensures tree { page_reading 200 2000000 (codes "<DIV><p A='1'>x&gt;y</p><!--c--><br></div>z")
        ≡ Children (ElementNode 1 (codes "div") []
        (ElementNode 2 (codes "p") (attribute (codes "a") (codes "1")
        ∷ []) (TextNode 3 (codes "x>y") Nil)
        (CommentNode 4 (codes "c") (ElementNode 5 (codes "br") [] Nil Nil)))
        (TextNode 6 (codes "z") Nil)) }
    ensures refused { page_reading 200 2000000 (codes "<div><p") ≡ Refused 7 Unclosed }
{}
