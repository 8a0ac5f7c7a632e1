ghost use Rattle.std.specs.Prelude.{◌≡◌, List, ◌≤◌, IfOk, IfErr};
ghost use Rattle.goasm_base.specs.Lines.{last_line};
ghost use Rattle.goasm_list.specs.declared.line.ListLine.{ListLine};
ghost use Rattle.goasm_list.specs.Rules.{file_count};
ghost use Rattle.goasm_list.specs.Sound.{AreWithin};
ghost use Rattle.goasm_run.specs.Plan.{Plan};
ghost use Rattle.goasm_run.specs.Lists.{list_answer};
ghost use Rattle.goasm_run.specs.Stops.{AnswerStopped};

use crate::stop::Stop;
use crate::{limits, lines};
use goasm_list::{BuildList, ListNo, read_list};
use std::alloc::Global;

/// The lines of a build list that was read from the file of this name.
#[tactic(auto, unfolding(crate::specs::Lists::list_answer), using(crate::proofs::NumberLemmas::within_last))]
pub fn lines_of(alloc: Global, name: &[u8], bytes: &[u8]) -> Result<BuildList, Stop>
    ensures lines { IfOk result (λ list. (next : List ListLine → Plan) → list_answer name.now next bytes.now ≡ next list.lines) }
    ensures files { IfOk result (λ list. file_count list.lines ≤ 1000) }
    ensures numbers { IfOk result (λ list. AreWithin last_line list.lines) }
    ensures stopped { IfErr result (λ stop. (next : List ListLine → Plan) → AnswerStopped (list_answer name.now next bytes.now) stop) }
{
    if bytes.len() > limits::LIST {
        return Err(Stop::Refused(lines::too_long(alloc, name)?));
    }
    match read_list(alloc, bytes) {
        Ok(list) => Ok(list),
        Err(ListNo::Q1(number)) => Err(Stop::Refused(lines::list_refused(alloc, name, number)?)),
        Err(ListNo::Memory) => Err(Stop::Memory),
    }
}
