// A kind of question: specs/Lines.
ghost use Rattle.std.specs.Prelude.{◌≡◌, List, ℕ, ◌+◌, ◌≤◌, length};
ghost use Rattle.digits.specs.Field.{pasted};

// How long the line of a question is, how long that of an answer, and what is said to a line.
pub(crate) trait Question {
    ghost LINE: { ℕ };

    ghost ANSWER: { ℕ };

    ghost said: { List ℕ → List ℕ };

    // The bytes of a sound line, with the one that ends it.
    const LINE: usize;

    // The bytes of an answer: the line's number in 6, what is said, and the one that ends it.
    const ANSWER: usize;

    // Writes what is said to a line to a place that has room for it.
    fn put_said(line: &[u8], out: &mut [u8], at: usize)
        requires { at + length (said line.now) ≤ length out.old }
        ensures { out.new ≡ pasted at (said line.now) out.old };
}
