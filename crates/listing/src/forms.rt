// Which opcodes Declare writes, and with how many words: tests 19 and 20 of one instruction.
ghost use Rattle.std.specs.Prelude.{◌≡◌};
ghost use Rattle.definition.specs.Choice.{unless, within};
ghost use Rattle.refusals.specs.Numbers.{test_number};
ghost use Rattle.listing.specs.Forms.{form_of, fits, id_words, TestedForm, Tested};

use refusals::Refusal;
use spirv::opcodes::Op;

// Where an instruction's result id stands behind its first word.
#[derive(Clone, Copy)]
pub enum ResultId {
    Missing,
    First,
    BehindType,
}

impl ResultId {
    // How many words it takes.
    pub fn words(self) -> usize
        ensures { result ≡ id_words self }
    {
        match self {
            ResultId::Missing => 0,
            ResultId::First | ResultId::BehindType => 1,
        }
    }
}

// What the instructions of an opcode have in common: the fewest and the most words, and where the result id stands.
#[derive(Clone, Copy)]
pub struct Form {
    pub least: usize,
    pub most: usize,
    pub result: ResultId,
}

impl Form {
    // Whether Declare writes one with so many words.
    pub fn fits(self, n: usize) -> bool
        ensures { result ≡ fits self n }
    {
        self.least <= n && n <= self.most
    }
}

const NAME: Form = Form {
    least: 3,
    most: usize::MAX,
    result: ResultId::Missing,
};

const MEMBER_NAME: Form = Form { least: 4, ..NAME };

const CAPABILITY: Form = Form {
    least: 2,
    most: 2,
    result: ResultId::Missing,
};

const TYPE_OF_2: Form = Form {
    least: 2,
    most: 2,
    result: ResultId::First,
};

const TYPE_OF_3: Form = Form {
    least: 3,
    most: 3,
    ..TYPE_OF_2
};

const TYPE_OF_4: Form = Form {
    least: 4,
    most: 4,
    ..TYPE_OF_2
};

const TYPE_IMAGE: Form = Form {
    least: 9,
    most: 9,
    ..TYPE_OF_2
};

const TYPE_STRUCT: Form = Form {
    most: usize::MAX,
    ..TYPE_OF_2
};

const TYPE_FUNCTION: Form = Form {
    least: 3,
    ..TYPE_STRUCT
};

const VALUE: Form = Form {
    least: 3,
    most: 3,
    result: ResultId::BehindType,
};

const CONSTANT: Form = Form {
    least: 4,
    most: 5,
    ..VALUE
};

const COMPOSITE: Form = Form {
    most: usize::MAX,
    ..VALUE
};

const DECORATE: Form = Form {
    least: 3,
    most: 4,
    result: ResultId::Missing,
};

const MEMBER_DECORATE: Form = Form {
    least: 4,
    most: 5,
    ..DECORATE
};

// The forms of the opcodes up to OpMemberDecorate, by number; nothing where Declare does not write the opcode. A match would be a
// jump at every look, which the processor guesses wrong.
static FORMS: [Option<Form>; 73] = [
    None,
    None,
    None,
    None,
    None,
    // 5 OpName
    Some(NAME),
    // 6 OpMemberName
    Some(MEMBER_NAME),
    None,
    None,
    None,
    None,
    None,
    None,
    None,
    None,
    None,
    None,
    // 17 OpCapability
    Some(CAPABILITY),
    None,
    // 19 OpTypeVoid
    Some(TYPE_OF_2),
    // 20 OpTypeBool
    Some(TYPE_OF_2),
    // 21 OpTypeInt
    Some(TYPE_OF_4),
    // 22 OpTypeFloat
    Some(TYPE_OF_3),
    // 23 OpTypeVector
    Some(TYPE_OF_4),
    // 24 OpTypeMatrix
    Some(TYPE_OF_4),
    // 25 OpTypeImage
    Some(TYPE_IMAGE),
    // 26 OpTypeSampler
    Some(TYPE_OF_2),
    None,
    // 28 OpTypeArray
    Some(TYPE_OF_4),
    // 29 OpTypeRuntimeArray
    Some(TYPE_OF_3),
    // 30 OpTypeStruct
    Some(TYPE_STRUCT),
    None,
    // 32 OpTypePointer
    Some(TYPE_OF_4),
    // 33 OpTypeFunction
    Some(TYPE_FUNCTION),
    None,
    None,
    None,
    None,
    None,
    None,
    None,
    // 41 OpConstantTrue
    Some(VALUE),
    // 42 OpConstantFalse
    Some(VALUE),
    // 43 OpConstant
    Some(CONSTANT),
    // 44 OpConstantComposite
    Some(COMPOSITE),
    None,
    // 46 OpConstantNull
    Some(VALUE),
    None,
    None,
    None,
    None,
    None,
    None,
    None,
    None,
    None,
    None,
    None,
    None,
    // 59 OpVariable
    Some(CONSTANT),
    None,
    None,
    None,
    None,
    None,
    None,
    None,
    None,
    None,
    None,
    None,
    // 71 OpDecorate
    Some(DECORATE),
    // 72 OpMemberDecorate
    Some(MEMBER_DECORATE),
];

// The form of an opcode; of those past the table Declare writes two, each with its result id alone.
pub fn form_of(op: u32) -> Option<Form>
    ensures { result ≡ form_of op }
{
    let i = op as usize;
    if i < FORMS.len() {
        return FORMS[i];
    }
    if op == Op::TypeRayQueryKhr as u32 || op == Op::TypeAccelerationStructureKhr as u32 {
        return Some(TYPE_OF_2);
    }
    None
}

// Test 19: an instruction has a word at least, and no more than are left.
fn end_test(n: usize, left: usize) -> Result<(), Refusal>
    ensures { test_number result ≡ unless (within 1 left n) 19 0 }
{
    if n == 0 || left < n {
        return Err(Refusal::InstructionLength);
    }
    Ok(())
}

// Test 20: Declare writes the opcode, and with so many words.
fn form_test(op: u32, n: usize) -> Result<Form, Refusal>
    ensures { TestedForm op n result }
{
    match form_of(op) {
        Some(form) if form.fits(n) => Ok(form),
        _ => Err(Refusal::InstructionForm),
    }
}

// Test 19, then 20, of an instruction of n words, where so many words are left.
pub fn instruction_test(op: u32, n: usize, left: usize) -> Result<Form, Refusal>
    ensures { Tested op n left result }
{
    end_test(n, left)?;
    form_test(op, n)
}
