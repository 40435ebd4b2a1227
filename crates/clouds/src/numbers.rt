ghost use Rattle.std.specs.Prelude.{◌≡◌, IfOk, OnOk};
ghost use Rattle.clouds.specs.Wide.{Extends, number_of};

use base_types::OutOfMemory;
use std::alloc::Global;
use std::collections::BTreeMap;

/// Texts with a number for each, so that what is filed under several texts is found without memory.
pub type Numbers = BTreeMap<Vec<u8>, u64>;

/// The text's number, if it has one.
pub fn number_at(numbers: &Numbers, text: &[u8]) -> Option<u64>
    ensures { result ≡ number_of numbers.now text.now }
{
    numbers.get(text).copied()
}

/// The text's number, a new one if it has none. That two texts have two numbers serves speed alone.
pub fn give_number(alloc: Global, numbers: &mut Numbers, text: &[u8]) -> Result<u64, OutOfMemory>
    ensures number { IfOk result (λ number. number_of numbers.new text.now ≡ Some number) }
    ensures kept { OnOk result (Extends numbers.old numbers.new) }
{
    if let Some(number) = number_at(numbers, text) {
        return Ok(number);
    }
    let number = numbers.len() as u64;
    let _none = numbers.insert(Vec::from_slice(alloc, text)?, number)?;
    Ok(number)
}
