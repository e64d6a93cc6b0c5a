//! Finds a variable that occurs twice among literals that need not be sorted, without allocating.
ghost use Rattle.std.specs.Prelude.{ℕ, List, ◌≡◌, ◌+◌, ◌-◌, ◌*◌, ◌/◌, ◌^◌, ◌<◌, ◌≤◌, ◌%◌, ◌==◌, ◌||◌, true, false};
ghost use Rattle.std.specs.Prelude.{length, get_or, IfSome, None, MatchBool};
ghost use Rattle.sat_base.specs.values.Literals.{negated, var_limit};
ghost use Rattle.sat_checker.specs.Accepts.{VariablesDistinct};
ghost use Rattle.sat_checker.specs.LiteralSets.{is_tautology};
ghost use Rattle.sat_checker.specs.inner.Clashes.{has_clash, key_of, is_marked, KeysBelow, NoClash, NoKeyBetween};

use sat_base::Lit;

/// The least number that is above all keys.
const LIMIT: usize = 1 << 29;

/// The least length of a list that is called long.
const LONG: usize = 1 << 10;

/// The number of words of marks for a list that is not long. A word has 64 marks.
const FEW_WORDS: usize = 1 << 8;

/// The number of words of marks for a long list.
///
/// These marks take 32 of the 132 KiB of stack that Linux maps when a process starts. Once memory has run out, the stack
/// cannot grow.
const MANY_WORDS: usize = 1 << 12;

/// Returns `true` if the literals include both signs of a variable. Never allocates.
pub fn include_both_signs(literals: &[Lit]) -> bool
    ensures { result ≡ is_tautology literals.now }
{
    have_clash(literals, false)
}

/// Returns `true` if no two of the literals have the same variable. Never allocates.
pub(crate) fn are_apart(literals: &[Lit]) -> bool
    ensures { MatchBool result (VariablesDistinct literals.now) (VariablesDistinct literals.now → ⊥) }
{
    !have_clash(literals, true)
}

/// Returns `true` if the literals include both signs of a variable or, if `repeats` is true, a variable more than once.
///
/// Many marks make fewer passes, but for a short list, clearing them would take longer than the passes.
#[inline(never)]
fn have_clash(literals: &[Lit], repeats: bool) -> bool
    ensures { result ≡ has_clash repeats literals.now }
{
    if literals.len() < LONG {
        have_clash_by_windows(literals, repeats, &mut [0; FEW_WORDS])
    } else {
        have_clash_by_windows(literals, repeats, &mut [0; MANY_WORDS])
    }
}

/// Returns what `have_clash` returns, whatever `marks` contains.
///
/// Goes over the literals twice for each window of keys that contains any: to find the window, and to mark its keys. The
/// window has a key for each mark.
fn have_clash_by_windows(literals: &[Lit], repeats: bool, marks: &mut [u64]) -> bool
    requires some { 0 < length marks.old }
    requires few { length marks.old ≤ 2 ^ 12 }
    ensures { result ≡ has_clash repeats literals.now }
{
    let width = 64 * marks.len();
    let mut low = 0;
    while let Some(start) = first_window(literals, repeats, low) {
        if clash_in_window(literals, repeats, start, marks) {
            return true;
        }
        low = start + width;
    }
    false
}

/// Returns the start of the next window: an even key from `low` on, below which no key from `low` on occurs. Returns
/// `None` if all keys are below `low`.
fn first_window(literals: &[Lit], repeats: bool, low: usize) -> Option<usize>
    requires { low % 2 ≡ 0 }
    ensures some { IfSome result (λ start. (low ≤ start) × ((start % 2 ≡ 0) × ((start < 2 * var_limit)
        × NoKeyBetween repeats low start literals.now))) }
    ensures none { result ≡ None → KeysBelow repeats low literals.now }
{
    let mut least = LIMIT;
    for lit in literals {
        let key = key_of(*lit, repeats);
        if low <= key {
            least = least.min(key);
        }
    }
    if least == LIMIT {
        return None;
    }
    Some(least - least % 2)
}

/// Returns `true` if a literal whose key is in the window from `start` on clashes with a later literal.
fn clash_in_window(literals: &[Lit], repeats: bool, start: usize, marks: &mut [u64]) -> bool
    requires even { start % 2 ≡ 0 }
    requires start { start < 2 * var_limit }
    requires few { length marks.old ≤ 2 ^ 12 }
    ensures count { length marks.new ≡ length marks.old }
    ensures found { result ≡ true → has_clash repeats literals.now ≡ true }
    ensures clear { result ≡ false → NoClash repeats 0 start (start + 64 * length marks.old) literals.now }
{
    clear(marks);
    for index in (0..literals.len()).rev() {
        let lit = literals[index];
        // A key before the window wraps to a place after it.
        let place = key_of(lit, repeats).wrapping_sub(start);
        if place >= 64 * marks.len() {
            continue;
        }
        let opposite = key_of(!lit, repeats);
        if is_marked(marks, opposite - start) {
            return true;
        }
        mark(marks, place);
    }
    false
}

/// Returns the key of a literal: the index of its variable if `repeats` is true, and its code otherwise. A literal
/// clashes with the literals that have the key of its negation.
#[inline(always)]
fn key_of(lit: Lit, repeats: bool) -> usize
    ensures key { result ≡ key_of repeats lit }
    ensures bound { result < 2 * var_limit }
    ensures pair { key_of repeats (negated lit) / 2 ≡ result / 2 }
{
    if repeats { lit.index() } else { lit.code() }
}

/// Clears all marks.
fn clear(marks: &mut [u64])
    ensures none { (k : ℕ) → k < length marks.new → get_or marks.new k 0 ≡ 0 }
    ensures count { length marks.new ≡ length marks.old }
{
    marks.fill(0);
}

/// Returns `true` if there is a mark at `place`.
#[inline(always)]
fn is_marked(marks: &[u64], place: usize) -> bool
    requires { place < 64 * length marks.now }
    ensures { result ≡ is_marked marks.now place }
{
    (marks[place / 64] >> (place % 64)) & 1 == 1
}

/// Sets the mark at `place`.
#[inline(always)]
fn mark(marks: &mut [u64], place: usize)
    requires { place < 64 * length marks.old }
    ensures marks { (k : ℕ) → is_marked marks.new k ≡ (place == k || is_marked marks.old k) }
    ensures count { length marks.new ≡ length marks.old }
{
    marks[place / 64] |= 1 << (place % 64);
}
