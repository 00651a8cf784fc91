// The refusals of the documents, each under a name, and the numbers by which the documents and the operations' callers know them.
#![tactic(auto)]

ghost use Rattle.std.specs.Prelude.{◌≡◌};
ghost use Rattle.refusals.specs.Numbers.{number_of};

#[derive(Clone, Copy, Debug, PartialEq, Eq)]
pub enum Refusal {
    SheetLength = 1,
    Version = 2,
    Flags = 3,
    NoRecord = 4,
    UnknownTag = 5,
    OutOfOrder = 6,
    TooMany = 7,
    FieldsEnd = 8,
    Name = 9,
    Value = 10,
    Reference = 11,
    Repeated = 12,
    Unfit = 13,
    Unavailable = 14,
    Bound = 15,
    BufferLength = 16,
    NoGlobal = 17,
    ModuleFront = 18,
    InstructionLength = 19,
    InstructionForm = 20,
}

impl Refusal {
    pub fn number(self) -> u8
        ensures { result ≡ number_of self }
    {
        self as u8
    }
}
