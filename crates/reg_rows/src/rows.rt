//! The rows of an office's tables, by the definitions of these.
ghost use Rattle.std.specs.Prelude.{ℕ, List, refl};
ghost use Rattle.reg_blocks.specs.Block.{SizedPrefix};
ghost use Rattle.reg_ranges.specs.declared.range.Range.{Range as RangeValue};
ghost use Rattle.reg_core.specs.World.{Link as LinkName, Place, RequestName, Seat as SeatName};
ghost use Rattle.reg_core.specs.declared.advice.Advice.{Advice as AdviceValue};
ghost use Rattle.reg_core.specs.declared.capability.Cap.{Cap};
ghost use Rattle.reg_core.specs.declared.holding.Holder.{Holder};
ghost use Rattle.reg_core.specs.declared.journal.Act.{Act};
ghost use Rattle.reg_core.specs.declared.request.Case.{Case};
ghost use Rattle.reg_core.specs.declared.entry.Registration.{Registration};
ghost use Rattle.reg_statements.specs.Office as office;
ghost use Rattle.reg_statements.proofs.Office as laws;

use crate::kept::Kept;
use reg_core::entry::Entry;
use reg_core::holding::Holding;
use reg_core::request::Request;
use reg_records::acts::NumberedAct;
use reg_records::advice::ExpertAdvice;
use reg_records::caps::Grant;
use reg_records::holds::Hold;
use reg_records::links::Link;
use reg_records::minutes::Minute;
use reg_records::pool::Prefix;
use reg_records::queue::Seat;
use reg_records::ranges::RegistryRange;
use reg_records::registries::Registry;

impl Kept for Grant {
    ghost Key = { List ℕ };

    ghost Value = { Cap };

    ghost table = { office.caps };

    ghost defined = { laws.caps };

    ghost reads = { refl };

    ghost compares = { refl };
}

impl Kept for Entry {
    ghost Key = { Place };

    ghost Value = { Registration };

    ghost table = { office.entries };

    ghost defined = { laws.entries };

    ghost reads = { refl };

    ghost compares = { refl };
}

impl Kept for Seat {
    ghost Key = { SeatName };

    ghost Value = { Unit {0} };

    ghost table = { office.queue };

    ghost defined = { laws.queue };

    ghost reads = { refl };

    ghost compares = { refl };
}

impl Kept for ExpertAdvice {
    ghost Key = { SeatName };

    ghost Value = { AdviceValue };

    ghost table = { office.advice };

    ghost defined = { laws.advice };

    ghost reads = { refl };

    ghost compares = { refl };
}

impl Kept for Prefix {
    ghost Key = { ℕ };

    ghost Value = { Unit {0} };

    ghost table = { office.pool };

    ghost defined = { laws.pool };

    ghost reads = { refl };

    ghost compares = { refl };
}

impl Kept for Registry {
    ghost Key = { List ℕ };

    ghost Value = { ℕ };

    ghost table = { office.registries };

    ghost defined = { laws.registries };

    ghost reads = { refl };

    ghost compares = { refl };
}

impl Kept for RegistryRange {
    ghost Key = { Place };

    ghost Value = { RangeValue };

    ghost table = { office.ranges };

    ghost defined = { laws.ranges };

    ghost reads = { refl };

    ghost compares = { refl };
}

impl Kept for Request {
    ghost Key = { RequestName };

    ghost Value = { Case };

    ghost table = { office.requests };

    ghost defined = { laws.requests };

    ghost reads = { refl };

    ghost compares = { refl };
}

impl Kept for Holding {
    ghost Key = { SizedPrefix };

    ghost Value = { Holder };

    ghost table = { office.blocks };

    ghost defined = { laws.blocks };

    ghost reads = { refl };

    ghost compares = { refl };
}

impl Kept for Hold {
    ghost Key = { Place };

    ghost Value = { Unit {0} };

    ghost table = { office.holds };

    ghost defined = { laws.holds };

    ghost reads = { refl };

    ghost compares = { refl };
}

impl Kept for Minute {
    ghost Key = { RequestName };

    ghost Value = { List ℕ };

    ghost table = { office.minutes };

    ghost defined = { laws.minutes };

    ghost reads = { refl };

    ghost compares = { refl };
}

impl Kept for Link {
    ghost Key = { LinkName };

    ghost Value = { Unit {0} };

    ghost table = { office.agents };

    ghost defined = { laws.agents };

    ghost reads = { refl };

    ghost compares = { refl };
}

impl Kept for NumberedAct {
    ghost Key = { ℕ };

    ghost Value = { Act };

    ghost table = { office.journal };

    ghost defined = { laws.journal };

    ghost reads = { refl };

    ghost compares = { refl };
}
