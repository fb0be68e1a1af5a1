//! Laws of the format, whatever is read or written.

ghost use Rattle.std.specs.Prelude.{◌≡◌, ◌<◌, ◌↔◌, ℕ, List, All, None};
ghost use Rattle.tp_image.specs.Image.{ImageValue, InRange};
ghost use Rattle.tp_image.specs.Text.{text, IsTextOf};
ghost use Rattle.tp_image.specs.Faults.{first_fault};

/// No two images have one text.
pub fn one_image()
    ensures { (bytes : List ℕ) (a b : ImageValue) → IsTextOf bytes a → IsTextOf bytes b → a ≡ b }
{}

/// An image that is written passes each test, and has no other text: it is read as the same image.
pub fn written_is_read()
    ensures passes { (image : ImageValue) → InRange image → first_fault (text image) ≡ None }
    ensures same { (image read : ImageValue) → InRange image → IsTextOf (text image) read → read ≡ image }
{}

/// Bytes pass each test exactly where an image has them.
pub fn refused_exactly()
    ensures { (bytes : List ℕ) → All (λ byte. byte < 256) bytes
        → ((first_fault bytes ≡ None) ↔ ((image : ImageValue) × IsTextOf bytes image)) }
{}
