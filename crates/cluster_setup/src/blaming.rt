ghost use Rattle.std.specs.Prelude.{◌≡◌, ◌+◌, ◌≤◌, length, All, IfOk, IfSome, IfNone};
ghost use Rattle.base_types.specs.Values.{InRange};
ghost use Rattle.setup_file.specs.declared.fault.SetupRule.{SetupRule as AnyRule};
ghost use Rattle.setup_file.specs.declared.fault.SetupFault.TheVariants.{Rule};
ghost use Rattle.cluster_setup.specs.Answers.{Breaks, OrMemory, blamed};
ghost use Rattle.cluster_setup.specs.Shown.{AreAccepted, IsBlamedFor, setup_from, setup_up_to};
ghost use Rattle.cluster_setup.specs.Blaming.{IsLeastBroken};

use crate::assembling::Given;
use crate::fault::{FileFault, SetupRefusal};
use crate::judging::accept_shown;
use base_types::OutOfMemory;
use setup_file::{SetupFault, SetupRule};
use std::alloc::Global;

// With the objects of how many files, in their order, a setup breaks which rule.
#[derive(Clone, Copy)]
struct Broken {
    number: usize,
    rule: SetupRule,
}

fn blamed(number: usize, rule: SetupRule) -> SetupRefusal
    ensures { result ≡ blamed number rule }
{
    if number == 0 {
        SetupRefusal::Rule(rule)
    } else {
        let code = FileFault::Rule(rule);
        SetupRefusal::File { number, code }
    }
}

// The rule that the setup breaks with the objects of as many files. Where it breaks none, it breaks none with those of
// fewer.
fn rule_broken(
    alloc: Global,
    given: Given<'_>,
    number: usize,
) -> Result<Option<SetupRule>, OutOfMemory>
    requires policy { InRange given.policy.now }
    requires trees { All InRange given.trees.now }
    requires within { number ≤ length given.trees.now }
    ensures broken { IfOk result (λ found. IfSome found (Breaks (setup_up_to given.entry number))) }
    ensures accepted { IfOk result (λ found. IfNone found (AreAccepted given.entry (number + 1))) }
{
    match accept_shown(alloc, given, &given.trees[..number]) {
        Ok(text) => {
            drop(text);
            Ok(None)
        }
        Err(SetupFault::Rule(rule)) => Ok(Some(rule)),
        Err(SetupFault::OutOfMemory) => Err(OutOfMemory),
    }
}

// The least number of files with whose objects a rule is broken, in log n tries.
fn first_broken(alloc: Global, given: Given<'_>, rule: SetupRule) -> Result<Broken, OutOfMemory>
    requires policy { InRange given.policy.now }
    requires trees { All InRange given.trees.now }
    requires broken { Breaks (setup_from given given.trees.now) rule }
    ensures { IfOk result (IsLeastBroken given.entry) }
{
    let mut accepted = 0;
    let number = given.trees.len();
    let mut first = Broken { number, rule };
    'halves: while accepted < first.number {
        let number = accepted + (first.number - accepted) / 2;
        match rule_broken(alloc, given, number)? {
            Some(rule) => first = Broken { number, rule },
            None => accepted = number + 1,
        }
    }
    Ok(first)
}

/// The refusal of a setup that isn't accepted: it names the first file with whose objects some rule is broken.
pub fn refuse(alloc: Global, given: Given<'_>, fault: SetupFault) -> SetupRefusal
    requires policy { InRange given.policy.now }
    requires trees { All InRange given.trees.now }
    requires broken { (rule : AnyRule) → fault ≡ Rule rule
        → Breaks (setup_from given given.trees.now) rule }
    ensures { OrMemory (IsBlamedFor given.entry) result }
{
    match fault {
        SetupFault::Rule(rule) => match first_broken(alloc, given, rule) {
            Ok(first) => blamed(first.number, first.rule),
            Err(_) => SetupRefusal::OutOfMemory,
        },
        SetupFault::OutOfMemory => SetupRefusal::OutOfMemory,
    }
}
