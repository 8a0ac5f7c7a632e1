ghost use Rattle.std.specs.Prelude.{◌≡◌, ◌↔◌, ◌<◌, IsTrue};
ghost use Rattle.least_forms.specs.Problem.{Problem};
ghost use Rattle.least_forms.specs.Laws.{IsLawful};

/// Lines of code that will stand one behind the other, some of them branches to a line. Each method is asked often,
/// so that it should take no more than constant time.
///
/// The form 0 is the short one, 1 the long one; a line that is no branch is asked for form 1 alone.
pub trait Lines {
    /// What the lines are.
    ghost problem: { Self → Problem };

    /// What the law below asks of the value.
    ghost fine: { Self → Type 0 };

    /// How many lines there are.
    fn count(&self) -> usize
        ensures { result ≡ (problem self.now).count };

    /// How many bytes the line has in this form.
    fn width(&self, line: usize, form: u8) -> u32
        requires line { line < (problem self.now).count }
        requires form { form < 2 }
        ensures { result ≡ (problem self.now).width line form };

    /// The line that this one branches to, if it does.
    fn goal(&self, line: usize) -> Option<usize>
        requires { line < (problem self.now).count }
        ensures { result ≡ (problem self.now).goal line };

    /// Whether the branch in this form, at this place, can go to that place. Places are in bytes from the first line.
    fn reaches(&self, line: usize, form: u8, place: u32, goal: u32) -> bool
        requires line { line < (problem self.now).count }
        requires form { form < 2 }
        ensures { IsTrue result ↔ (problem self.now).reaches line form place goal };

    // A law. It stays below the last method: a ghost member above one is data.

    /// Forms are whole quanta, the long form isn't the smaller, branches go to lines, and what reaches in the
    /// short form reaches what is nearer.
    ghost lawful: { (lines : Self) → fine lines → IsLawful (problem lines) };
}
