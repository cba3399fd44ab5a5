// What answers the lines of an input.

ghost use Rattle.std.specs.Prelude.{◌≡◌, ℕ, ◌<◌, List, [], ◌∷◌, length, OnOk, OnErr};
ghost use Rattle.rapid_model.specs.Limits.{longest_line};
ghost use Rattle.rapid_text.specs.Underway.{Answers};

use std::alloc::AllocError;

/// What answers the lines of an input, one after another.
pub trait Engine {
    // From this state on these lines may print this text, if memory runs out this many times in
    // all, those before counted.
    ghost prints: { Self → List (List ℕ) → List ℕ → ℕ → Type 0 };

    // How many times memory ran out so far.
    ghost met: { Self → ℕ };

    /// Appends what the line prints to `output`, and goes on to the next state. If out of memory
    /// ends the run, the output is as it was.
    fn answer(&mut self, line: &[u8], output: &mut Vec<u8>) -> Result<(), AllocError>
        ensures ok { OnOk result (Answers prints self.old self.new line.now output.old.items output.new.items) }
        ensures unchanged { OnErr result (output.new.items ≡ output.old.items) };

    // No lines print nothing.
    ghost ends: { (state : Self) → prints state [] [] (met state) };

    // All lines of more than 256 bytes print the same.
    ghost too_long: { (state : Self) (line other : List ℕ) (later : List (List ℕ)) (text : List ℕ) (n : ℕ)
        → longest_line < length line → longest_line < length other →
        prints state (line ∷ later) text n → prints state (other ∷ later) text n };

    // Whatever the lines are, they print something, and memory runs out no more.
    ghost speaks: { (state : Self) (lines : List (List ℕ)) → (text : List ℕ) × prints state lines text (met state) };
}
