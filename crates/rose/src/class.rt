// What the classes of operations say of a call.
ghost use Rattle.std.specs.Prelude.{◌≡◌, ◌==◌, not, ◌||◌};
ghost use Rattle.optable.specs.Class.{class_number};
ghost use Rattle.protocol.specs.Check.{is_class};

use optable::Class;

// Whether the two are one class, by their octets, as `is_class` compares them.
pub(crate) fn is_of(class: Class, other: Class) -> bool
    ensures { result ≡ (class_number class == class_number other) }
{
    u8::from(class) == u8::from(other)
}

// Whether it is one of two classes.
pub(crate) fn is_either(class: Class, first: Class, second: Class) -> bool
    ensures { result ≡ is_class (class_number first) (class_number second) (class_number class) }
{
    is_of(class, first) || is_of(class, second)
}

// An operation of class 5 makes no record.
pub(crate) fn makes_record(class: Class) -> bool
    ensures { result ≡ not (class_number class == 5) }
{
    !is_of(class, Class::Unanswered)
}
