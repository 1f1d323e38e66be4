// The classes of operations: what the end that was asked may answer.
ghost use Rattle.std.specs.Prelude.{◌≡◌};
ghost use Rattle.optable.specs.Class.{class_with, class_number};

use std::fmt;

#[derive(Clone, Copy, Debug, PartialEq, Eq)]
pub enum Class {
    // 1 and 2: by a result or an error.
    Synchronous,
    Asynchronous,
    // 3: by an error alone.
    ErrorOnly,
    // 4: by a result alone.
    ResultOnly,
    // 5: by nothing.
    Unanswered,
    // Another octet, which no valid table has: `class_with` has a class for every octet.
    Unknown(u8),
}

impl From<u8> for Class {
    ghost from_gives = { λ octet class. class ≡ class_with octet };

    fn from(octet: u8) -> Class {
        match octet {
            1 => Class::Synchronous,
            2 => Class::Asynchronous,
            3 => Class::ErrorOnly,
            4 => Class::ResultOnly,
            5 => Class::Unanswered,
            _ => Class::Unknown(octet),
        }
    }
}

impl From<Class> for u8 {
    ghost from_gives = { λ class octet. octet ≡ class_number class };

    fn from(class: Class) -> u8 {
        match class {
            Class::Synchronous => 1,
            Class::Asynchronous => 2,
            Class::ErrorOnly => 3,
            Class::ResultOnly => 4,
            Class::Unanswered => 5,
            Class::Unknown(octet) => octet,
        }
    }
}

impl fmt::Display for Class {
    fn fmt<W: fmt::Write>(&self, f: &mut fmt::Formatter<W>) -> fmt::Result {
        f.write_str(match self {
            Class::Synchronous => "synchronous, result or error",
            Class::Asynchronous => "asynchronous, result or error",
            Class::ErrorOnly => "error only",
            Class::ResultOnly => "result only",
            Class::Unanswered => "no answer",
            Class::Unknown(_) => "",
        })
    }
}
