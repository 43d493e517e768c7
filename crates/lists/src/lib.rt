// Lists, whatever they hold. The code sets lent buffers to one value, as document 01's replies 7 and 8 and its error cells
// ask of 0; the definitions and laws on lists that every picture needs stand in specs/ and proofs/.
#![tactic(auto)]

ghost use Rattle.std.specs.Prelude.{◌≡◌, length, replicate};

// Sets every element to one value.
//
// Kept beside the library's `fill`, which asks for a clone that cannot fail: `T: Copy` alone does not say that.
pub fn fill<T: Copy>(s: &mut [T], value: T)
    ensures { s.new ≡ replicate (length s.old) value }
{
    for x in s.iter_mut() {
        *x = value;
    }
}
