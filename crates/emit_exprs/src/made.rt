//! The numbers of made names.

ghost use Rattle.std.specs.Prelude.{◌≡◌, suc, ◌+◌, IfOk, OnOk};

use std::alloc::AllocError;

/// The number of the next made name, which is taken. The error means that there is none.
pub fn next_made(made: &mut u64) -> Result<u64, AllocError>
    ensures number { IfOk result (λ n. n ≡ made.old) }
    ensures counted { OnOk result (made.new ≡ suc made.old) }
{
    let number = *made;
    *made = number.checked_add(1).ok_or(AllocError)?;
    Ok(number)
}

/// Takes the next `count` numbers, of which the result is the first. The error means that there are not so many.
pub fn take_made(made: &mut u64, count: usize) -> Result<u64, AllocError>
    ensures number { IfOk result (λ n. n ≡ made.old) }
    ensures counted { OnOk result (made.new ≡ made.old + count) }
{
    let number = *made;
    *made = number.checked_add(count as u64).ok_or(AllocError)?;
    Ok(number)
}
