//! Laws of the thread machine.

ghost use Rattle.integer_machine.specs.Meaning.{FieldsMeanThat};

/// The untyped words of a thread that fits its module stand for one typed state: the one that they mean by the types
/// that the validator's check has at its places.
pub fn fields_have_one_meaning()
    ensures { FieldsMeanThat }
{}
