// Entries that were read, taken from the sheet again by value; no test is made here. The enums, their variants and their fields
// have the Rust's names, but some fields hold document 01's bare numbers where the Rust has an enum: the size of a vector and of a
// matrix (`VectorSize`), the size of an array, 0 for a dynamic one (`ArraySize`), a storage format (`StorageFormat`, in `kinds`) and
// an access (`StorageAccess`). What has no fixed length stays in the record's body: names, a struct's members, a Compose's parts.
// A field outside its values, which test 10 refuses, is taken for some value that it may have; so each promise is for
// fields that pass that test.
#![tactic(auto)]

pub mod constants;
pub mod globals;
pub mod members;
pub mod types;

ghost use Rattle.std.specs.Prelude.{◌≡◌, ◌<◌, length, drop, get_or};

// The sheet from the i-th place on: the record of the i-th entry of a kind, whose places are these.
pub fn entry_at<'a>(sheet: &'a [u8], places: &[u32], index: usize) -> &'a [u8]
    requires { index < length places.now }
    ensures { result.now ≡ drop (get_or places.now index 0) sheet.now }
{
    records::rest_at(sheet, places[index] as usize)
}
