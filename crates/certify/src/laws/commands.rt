//! Laws about commands that are served one after another.
ghost use Rattle.certify.specs.run.ServingLaws.{AskServes, CoresAreSorted, PlainServes, RefusalServes, ServingComposes};

/// States that commands can be served one after another. Each command is refused, or adds its steps; an ask also adds
/// its answer.
pub fn commands_are_served()
    ensures composes { ServingComposes }
    ensures refused { RefusalServes }
    ensures plain { PlainServes }
    ensures asked { AskServes }
{}

/// States that a solver's core, whatever the order of its literals, is a correct answer once they are sorted.
pub fn cores_are_sorted()
    ensures { CoresAreSorted }
{}
