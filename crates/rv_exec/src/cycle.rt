//! The cycle of an instruction: its word is fetched, decoded and executed.

ghost use Rattle.std.specs.Prelude.{◌≡◌, ◌≢◌, false};
ghost use Rattle.rv_exec.specs.Execution.{done_by, exec, StepsAs};
ghost use Rattle.rv_exec.specs.Flows.{outcome_of};
ghost use Rattle.rv_table.specs.Table.{instr_of};

use crate::access::Exact;
use crate::execute::execute;
use crate::load::refused;
use crate::{Flow, Mem, Step};
use rv_table::{Instr, Regs, decode};

/// Does the next instruction of a task. It takes no memory but what its memory's own calls take.
#[tactic(auto, unfolding(crate::specs::Execution::exec))]
pub fn step<M: Mem>(regs: &mut Regs, mem: &mut M) -> Step
    ensures done { StepsAs M.after (exec (M.seen (M.told mem.old)) regs.old)
        regs.old regs.new (M.told mem.old) (M.told mem.new) result }
    ensures lean { M.takes_memory ≡ false → result ≢ Step.Memory }
{
    match mem.fetch(regs.pc) {
        Ok(word) => run_word(regs, mem, word),
        Err(refusal) => refused(refusal),
    }
}

/// Does the instruction of a word.
fn run_word<M: Mem>(regs: &mut Regs, mem: &mut M, word: u32) -> Step
    ensures done { StepsAs M.after (done_by (M.seen (M.told mem.old)) regs.old (instr_of word))
        regs.old regs.new (M.told mem.old) (M.told mem.new) result }
    ensures lean { M.takes_memory ≡ false → result ≢ Step.Memory }
{
    let instr = decode(word);
    run_exactly(regs, mem, &instr)
}

/// Does an instruction by exact accesses.
#[tactic(auto, using(crate::proofs::Exactly::step_done, crate::proofs::Exactly::step_lean))]
fn run_exactly<M: Mem>(regs: &mut Regs, mem: &mut M, instr: &Instr) -> Step
    ensures done { StepsAs M.after (done_by (M.seen (M.told mem.old)) regs.old instr.now)
        regs.old regs.new (M.told mem.old) (M.told mem.new) result }
    ensures lean { M.takes_memory ≡ false → result ≢ Step.Memory }
{
    let mut exact = Exact { why: Step::Next };
    let flow = execute(regs, mem, &mut exact, instr);
    outcome(flow, exact.why)
}

/// What a flow of exact accesses comes to, by why the last refused one was.
fn outcome(flow: Flow, why: Step) -> Step
    ensures { result ≡ outcome_of flow why }
{
    match flow {
        Flow::Next | Flow::Jump => Step::Next,
        Flow::Call => Step::Call,
        Flow::Trap(signal) => Step::Trap(signal),
        Flow::Refused => why,
    }
}
