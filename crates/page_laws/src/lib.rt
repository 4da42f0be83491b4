//! Laws of pages: what is written is read back. The definitions stand in specs/: which trees can be
//! written (`Writable`), and which are as reading leaves them (`Tidy`). Each function has an empty
//! body: its contract is a law about the definitions.
#![tactic(auto)]

ghost use Rattle.std.specs.Prelude.{◌≡◌, ◌≤◌, ℕ, List, length};
ghost use Rattle.page_grammar.specs.DomModel.declared.Content.{Content};
ghost use Rattle.page_grammar.specs.DomModel.Forest.{Forest};
ghost use Rattle.page_grammar.specs.DomModel.Places.{kids_in};
ghost use Rattle.page_grammar.specs.Page.{Siblings};
ghost use Rattle.page_grammar.specs.Bytes.{PageBytes};
ghost use Rattle.page_grammar.specs.Kind.{page_limit};
ghost use Rattle.page_grammar.specs.Nodes.{nodes_of, document_of};
ghost use Rattle.page_grammar.specs.Reading.{Children, page_reading};
ghost use Rattle.page_write.specs.Html.{html_of, document_html};
ghost use Rattle.page_laws.specs.Writable.{IsWritable};
ghost use Rattle.page_laws.specs.Tidy.{IsTidy, IsNumbered, label_after, tidied, numbered};

/// The tree of a page can be written, its texts are maximal runs, and its labels are those from 1
/// on, in tree order.
pub fn page_trees_are_writable()
    ensures writable { (d c : ℕ) (s : List ℕ) (f : Siblings) → PageBytes d c s f
        → IsWritable d (nodes_of f) }
    ensures tidy { (d c : ℕ) (s : List ℕ) (f : Siblings) → PageBytes d c s f
        → IsTidy (nodes_of f) }
    ensures labelled { (d c : ℕ) (s : List ℕ) (f : Siblings) → PageBytes d c s f
        → IsNumbered c 1 (nodes_of f) }
{}

/// Each such tree, written, is a page that stands for it. So these are the trees of pages, and no
/// others.
pub fn written_trees_are_pages()
    ensures { (d c : ℕ) (f : Forest Content) → IsWritable d f → IsTidy f → IsNumbered c 1 f
        → (g : Siblings)
        × (nodes_of g ≡ f) × PageBytes d c (html_of f) g }
{}

/// A page's tree, written and read again, is the same, labels included, where what is written
/// isn't too long.
pub fn pages_are_read_back()
    ensures page { (d c : ℕ) (s : List ℕ) (f : Siblings) → PageBytes d c s f
        → PageBytes d c (document_html (document_of f)) f }
    ensures reading { (d c : ℕ) (s : List ℕ) (f : Siblings) → page_reading d c s ≡ Children f
        → length (document_html (document_of f)) ≤ page_limit
        → page_reading d c (document_html (document_of f)) ≡ Children f }
{}

/// A tree is printed the same once its texts are joined, and whatever its labels are. One that is
/// tidy stays as it is, and so does one that is numbered.
pub fn tidied_trees_print_the_same()
    ensures joined { (d : ℕ) (f : Forest Content) → IsWritable d f → html_of (tidied f)
        ≡ html_of f }
    ensures relabelled { (n : ℕ) (f : Forest Content) → html_of (numbered n f) ≡ html_of f }
    ensures tidy { (f : Forest Content) → IsTidy (tidied f) }
    ensures tidy_stays { (d : ℕ) (f : Forest Content) → IsWritable d f → IsTidy f → tidied f ≡ f }
    ensures numbered_stays { (c n : ℕ) (f : Forest Content) → IsNumbered c n f → numbered n f
        ≡ f }
{}

/// A document whose nodes can all be written is read back with its texts joined, its empty texts
/// gone, and its labels drawn anew, where labels below the cap suffice and what is written isn't
/// too long.
pub fn documents_are_read_back()
    ensures page { (d c : ℕ) (f : Forest Content) → IsWritable d (kids_in f)
        → label_after 1 (tidied (kids_in f)) ≤ c → (g : Siblings)
        × (nodes_of g ≡ numbered 1 (tidied (kids_in f))) × PageBytes d c (document_html f) g }
    ensures reading { (d c : ℕ) (f : Forest Content) → IsWritable d (kids_in f)
        → label_after 1 (tidied (kids_in f)) ≤ c → length (document_html f) ≤ page_limit
        → (g : Siblings)
        × (nodes_of g ≡ numbered 1 (tidied (kids_in f)))
        × (page_reading d c (document_html f) ≡ Children g) }
{}
