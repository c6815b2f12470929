//! What is stepped at a desk.

ghost use Rattle.std.specs.Prelude.{◌≡◌, ◌≢◌, ℕ, ◌≤◌, List, [], ◌∷◌, ◌++◌};
ghost use mathlib.Core.List.{IsPrefix};

/// A machine that several numbers step, one at a time. Its content is what contracts see of it.
///
/// The steps of a number are the calls made by it, each with its reply. What is ready a number can
/// tell by its own steps; what the content knows of them only the machine can.
pub trait Machine: Drop {
    /// What a step is asked.
    type Call;

    /// What a step answers.
    type Reply;

    /// An entry of the story.
    type Event;

    // A list that is part of the content.
    ghost story: { Self → List Self.Event };

    // From the first content, a call of the number may get this reply and lead to the second.
    ghost moved: { Self → ℕ → Self.Call → Self.Reply → Self → Type 0 };

    // A number with these steps may make this call next.
    ghost ready: { ℕ → List (Self.Call × Self.Reply) → Self.Call → Type 0 };

    // The content agrees with the steps of a number.
    ghost knows: { Self → ℕ → List (Self.Call × Self.Reply) → Type 0 };

    // A story agrees with the steps of a number.
    ghost within: { List Self.Event → ℕ → List (Self.Call × Self.Reply) → Type 0 };

    // The content is one in which no step was made.
    ghost opening: { Self → Type 0 };

    /// One step of a number.
    fn step(&mut self, number: u32, call: &Self::Call) -> Self::Reply
        requires number { (1 ≤ number) × (number ≤ 64) }
        requires allowed { (steps : List (Self.Call × Self.Reply)) × knows self.old number steps × ready number steps call.now }
        ensures moved { moved self.old number call.now result self.new };

    // The story before a step is a front of the one after it.
    ghost story_grows: { (a b : Self) (number : ℕ) (call : Self.Call) (reply : Self.Reply)
        → moved a number call reply b → IsPrefix (story a) (story b) };

    // A step of a number is known with those before it.
    ghost own_steps: { (a b : Self) (number : ℕ) (steps : List (Self.Call × Self.Reply)) (call : Self.Call) (reply : Self.Reply)
        → knows a number steps → ready number steps call → moved a number call reply b
        → knows b number (steps ++ (call, reply) ∷ []) };

    // And what is known of every other number stays.
    ghost other_steps: { (a b : Self) (number : ℕ) (steps : List (Self.Call × Self.Reply)) (call : Self.Call) (reply : Self.Reply)
        (other : ℕ) (others : List (Self.Call × Self.Reply))
        → knows a number steps → ready number steps call → moved a number call reply b
        → other ≢ number → knows a other others → knows b other others };

    // An opening content knows every number with no steps.
    ghost no_steps: { (a : Self) (number : ℕ) → opening a → knows a number [] };

    // Where a content knows the steps of a number, its story agrees with them.
    ghost steps_within: { (a : Self) (number : ℕ) (steps : List (Self.Call × Self.Reply))
        → knows a number steps → within (story a) number steps };
}
