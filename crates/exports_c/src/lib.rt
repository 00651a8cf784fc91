// For C and Rust to call: the four functions of `exports`, each under its own name and with its clauses. `include/voulkrod.h` says
// what each pointer must be; a slice passes as a pointer and a length.
#![tactic(auto)]

ghost use Rattle.exports.specs.Numbers.{CheckExported, DeclareExported, WrappedExported, ListExported};

#[unsafe(no_mangle)]
pub extern "C" fn voulkrod_check(sheet: &[u8]) -> u32
    ensures { CheckExported sheet.now result }
{
    exports::voulkrod_check(sheet)
}

#[unsafe(no_mangle)]
pub extern "C" fn voulkrod_declare(sheet: &[u8], words: &mut [u32]) -> u64
    ensures { DeclareExported sheet.now words.old result words.new }
{
    exports::voulkrod_declare(sheet, words)
}

#[unsafe(no_mangle)]
pub extern "C" fn voulkrod_wrapped(sheet: &[u8], index: usize) -> u32
    ensures { WrappedExported sheet.now index result }
{
    exports::voulkrod_wrapped(sheet, index)
}

#[unsafe(no_mangle)]
pub extern "C" fn voulkrod_list(words: &[u32], list: &mut [u32]) -> u64
    ensures { ListExported words.now list.old result list.new }
{
    exports::voulkrod_list(words, list)
}
