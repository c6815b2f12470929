//! What the lines of a script come to.

ghost use Rattle.std.specs.Prelude.{ℕ, List, Option, Result};
ghost use Rattle.step_script.specs.declared.line.Line.{Line};
ghost use Rattle.steps_command.specs.declared.play.Stop.{Stop};
ghost use Rattle.steps_command.specs.Play.{Stage, Plays};
ghost use Rattle.steps_command.specs.Steps.{IsRun};

/// The steps of a script are a run, whose replies are printed.
pub fn law_script_run()
    ensures { (old : Stage) (number : ℕ) (lines : List (Option Line)) (printed : List ℕ) (end : Result (Unit {0}) Stop)
        → Plays old number lines printed end → IsRun old number lines printed end }
{}
