// What is wrong with a table: the rules, each with its name.
use crate::Part;
use codes::NameFault;

// The first rule that a table breaks.
#[derive(Clone, Copy, Debug, PartialEq, Eq)]
pub enum Fault {
    // The table starts with 65,535, and the edition behind it is not 2.
    UnknownEdition,
    // There are fewer octets than a header has.
    Header,
    // A part does not start where the one before it ends, the first behind the header.
    Offset(Part),
    // The table does not end where its last part does.
    Length,
    // A part has more entries than it may have.
    Count(Part),
    Entry {
        part: Part,
        index: u16,
        breach: Breach,
    },
}

// The rule that an entry breaks.
#[derive(Clone, Copy, Debug, PartialEq, Eq)]
pub enum Breach {
    // An operation's class is 1 to 5.
    Class,
    // An operation has no flags but 1 and 2, an error none but 1; in edition 2 also 4 and 8, and 2.
    Flags,
    // What has type 0 is not optional.
    ArgumentFlag,
    // The low five bits of a type are not all ones.
    ArgumentType,
    ResultFlag,
    ResultType,
    // Classes 3 and 5 have result type 0.
    ResultUnexpected,
    ParameterFlag,
    ParameterType,
    // The index that a code is, is that of a name.
    NameIndex,
    // Probe and acknowledge have class 1 or 2.
    ServiceClass,
    // Probe has argument type 30 hexadecimal and acknowledge 02, not optional.
    ServiceArgument,
    // Both have result type 0A hexadecimal, not optional.
    ServiceResult,
    // A table with probe has acknowledge.
    NoAcknowledge,
    // The first index is that of an operation.
    FirstIndex,
    // The second index is that of an error, or of a child operation.
    SecondIndex,
    // An operation of class 4 or 5 has no error pair, one of class 5 no child pair.
    PairClass,
    // A name has its form.
    NameForm(NameFault),
    // Codes and pairs rise.
    Order,
    // Names are all different.
    Repeated,
}
