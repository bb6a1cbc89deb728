// Lists kept in order in fixed memory: one element put in or taken out, the others moved by one
// place. Two functions, and not one told the direction, since each is one call of the library.
#![tactic(auto)]

ghost use Rattle.std.specs.Prelude.{◌≡◌, ◌-◌, ◌∷◌, ◌++◌, length, take, drop};

// Puts `value` first and moves the others up by one; the last falls out.
pub fn shift_up<T: Copy>(part: &mut [T], value: T)
    ensures { part.new ≡ take (length part.old) (value ∷ part.old) }
{
    if part.is_empty() {
        return;
    }
    part.copy_within(..part.len() - 1, 1);
    part[0] = value;
}

// Moves all but the first down by one; the last stays where it was, too.
pub fn shift_down<T: Copy>(part: &mut [T])
    ensures { part.new ≡ drop 1 part.old ++ drop (length part.old - 1) part.old }
{
    if part.is_empty() {
        return;
    }
    part.copy_within(1.., 0);
}
