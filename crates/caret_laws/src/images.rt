//! Inserting an image.

ghost use Rattle.caret_laws.specs.ImageLaws.{InsertImageAdds};

/// At a caret of the host, inserting an image adds one img with that address at one place, and
/// loses no image, no rule and no character other than tab, LF, CR, space and U+00A0, keeps their
/// order, and brings no other.
pub fn insert_image_adds()
    ensures { InsertImageAdds }
{}
