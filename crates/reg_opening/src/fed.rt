//! The rows of an office's tables as rows that an audit is fed.
ghost use Rattle.std.specs.Prelude.{◌≡◌, ℕ, List, refl};
ghost use Rattle.std.specs.FinMap.{empty};
ghost use Rattle.reg_opening.specs.declared.row.Row.TheVariants as row;
ghost use Rattle.reg_blocks.specs.Block.{SizedPrefix};
ghost use Rattle.reg_core.specs.World.{Link as LinkName, Place, RequestName, Seat as SeatName};
ghost use Rattle.reg_core.specs.declared.advice.Advice.{Advice as AdviceValue};
ghost use Rattle.reg_core.specs.declared.capability.Cap.{Cap};
ghost use Rattle.reg_core.specs.declared.entry.Registration.{Registration};
ghost use Rattle.reg_core.specs.declared.holding.Holder.{Holder};
ghost use Rattle.reg_core.specs.declared.request.Case.{Case};
ghost use Rattle.reg_statements.specs.Content.{marked, minuted};
ghost use Rattle.reg_statements.specs.Office as office;
ghost use Rattle.reg_statements.proofs.Office as laws;
ghost use Rattle.reg_opening.specs.FedRows as rows;
ghost use Rattle.reg_opening.specs.Parts.{AreUnmarked, AreUnminuted, ExpiresIn, RenewsIn};

use crate::feed::{Fed, FedRow};
use crate::row::Row;
use reg_core::entry::Entry;
use reg_core::holding::Holding;
use reg_core::request::Request;
use reg_records::advice::ExpertAdvice;
use reg_records::caps::Grant;
use reg_records::holds::Hold;
use reg_records::links::Link;
use reg_records::minutes::Minute;
use reg_records::pool::Prefix;
use reg_records::queue::Seat;

impl Fed for Grant {
    ghost row_of = { λ grant. row.Cap grant.digest grant.cap };

    fn row(self) -> Row {
        Row::Cap(self.digest, self.cap)
    }
}

impl Fed for Entry {
    ghost row_of = { row.Entry };

    fn row(self) -> Row {
        Row::Entry(self)
    }
}

impl Fed for Prefix {
    ghost row_of = { row.Prefix };

    fn row(self) -> Row {
        Row::Prefix(self.number())
    }
}

impl Fed for Holding {
    ghost row_of = { row.Block };

    fn row(self) -> Row {
        Row::Block(self)
    }
}

impl Fed for Request {
    ghost row_of = { row.Request };

    fn row(self) -> Row {
        Row::Request(self)
    }
}

impl Fed for Seat {
    ghost row_of = { λ seat. row.Seat seat.account seat.reference seat.expert };

    fn row(self) -> Row {
        Row::Seat(self.account, self.reference, self.expert)
    }
}

impl Fed for ExpertAdvice {
    ghost row_of = { λ given. row.Advice given.seat.account given.seat.reference given.seat.expert
        given.advice };

    fn row(self) -> Row {
        let seat = self.seat;
        Row::Advice(seat.account, seat.reference, seat.expert, self.advice)
    }
}

impl Fed for Hold {
    ghost row_of = { λ hold. row.Hold hold.registry hold.value };

    fn row(self) -> Row {
        Row::Hold(self.registry, self.value)
    }
}

impl Fed for Minute {
    ghost row_of = { λ named. row.Minute named.account named.reference named.minute };

    fn row(self) -> Row {
        Row::Minute(self.account, self.reference, self.minute)
    }
}

impl Fed for Link {
    ghost row_of = { λ link. row.Link link.principal link.agent };

    fn row(self) -> Row {
        Row::Link(self.principal, self.agent)
    }
}

impl FedRow for Grant {
    ghost Key = { List ℕ };

    ghost Value = { Cap };

    ghost table = { office.caps };

    ghost put = { λ w m. record w { caps = m } };

    ghost Before = { λ t w. w.caps ≡ empty };

    ghost IsTied = { λ t k. Unit {0} };

    #[tactic(auto, using(crate::proofs::FedRows::shows_caps))]
    fn all() -> &'static str {
        "SELECT digest, account, kind, until, rowid FROM caps ORDER BY rowid"
    }

    fn width() -> usize {
        4
    }

    fn slot() -> usize {
        1
    }

    ghost defined = { laws.caps };

    ghost reads = { λ row. refl };

    ghost behind = { λ row. refl };

    ghost placed = { rows.caps_placed };

    ghost fed = { rows.caps };
}

impl FedRow for Entry {
    ghost Key = { Place };

    ghost Value = { Registration };

    ghost table = { office.entries };

    ghost put = { λ w m. record w { entries = m } };

    ghost Before = { λ t w. (w.entries ≡ empty) × (w.requests ≡ empty) };

    ghost IsTied = { λ t k. Unit {0} };

    #[tactic(auto, using(crate::proofs::FedRows::shows_entries))]
    fn all() -> &'static str {
        "SELECT registry, value, label, assignee, first, expires, renewed, rowid FROM entries \
         ORDER BY rowid"
    }

    fn width() -> usize {
        7
    }

    fn slot() -> usize {
        4
    }

    ghost defined = { laws.entries };

    ghost reads = { λ row. refl };

    ghost behind = { λ row. refl };

    ghost placed = { rows.entries_placed };

    ghost fed = { rows.entries };
}

impl FedRow for Prefix {
    ghost Key = { ℕ };

    ghost Value = { Unit {0} };

    ghost table = { office.pool };

    ghost put = { λ w m. record w { pool = m } };

    ghost Before = { λ t w. (w.pool ≡ empty) × (w.blocks ≡ empty) };

    ghost IsTied = { λ t k. Unit {0} };

    #[tactic(auto, using(crate::proofs::FedRows::shows_pool))]
    fn all() -> &'static str {
        "SELECT prefix, rowid FROM pool ORDER BY rowid"
    }

    fn width() -> usize {
        1
    }

    fn slot() -> usize {
        8
    }

    ghost defined = { laws.pool };

    ghost reads = { λ row. refl };

    ghost behind = { λ row. refl };

    ghost placed = { rows.pool_placed };

    ghost fed = { rows.pool };
}

impl FedRow for Holding {
    ghost Key = { SizedPrefix };

    ghost Value = { Holder };

    ghost table = { office.blocks };

    ghost put = { λ w m. record w { blocks = m } };

    ghost Before = { λ t w. (w.blocks ≡ empty) × (w.requests ≡ empty) };

    ghost IsTied = { λ t k. Unit {0} };

    #[tactic(auto, using(crate::proofs::FedRows::shows_blocks))]
    fn all() -> &'static str {
        "SELECT first, size, holder, organization, address, private, rowid FROM blocks \
         ORDER BY rowid"
    }

    fn width() -> usize {
        6
    }

    fn slot() -> usize {
        9
    }

    ghost defined = { laws.blocks };

    ghost reads = { λ row. refl };

    ghost behind = { λ row. refl };

    ghost placed = { rows.blocks_placed };

    ghost fed = { rows.blocks };
}

impl FedRow for Request {
    ghost Key = { RequestName };

    ghost Value = { Case };

    ghost table = { office.requests };

    ghost put = { λ w m. record w { requests = m } };

    ghost Before = { λ t w. (w.requests ≡ empty) × (w.queue ≡ empty) };

    ghost IsTied = { λ t k. Unit {0} };

    #[tactic(auto, using(crate::proofs::FedRows::shows_requests))]
    fn all() -> &'static str {
        "SELECT account, reference, kind, registry, value, least, label, contact, specification, \
         rfc_number, rfc_stream, rfc_track, minute, draft, stable, interest, chair, director, \
         will_be_rfc, size, organization, address, state, given, reason, rowid FROM requests \
         ORDER BY rowid"
    }

    fn width() -> usize {
        25
    }

    fn slot() -> usize {
        5
    }

    ghost defined = { laws.requests };

    ghost reads = { rows.request_reads };

    ghost behind = { λ row. refl };

    ghost placed = { rows.requests_placed };

    ghost fed = { rows.requests };
}

impl FedRow for Seat {
    ghost Key = { SeatName };

    ghost Value = { Unit {0} };

    ghost table = { office.queue };

    ghost put = { λ w m. record w { queue = m } };

    ghost Before = { λ t w. (w.queue ≡ empty) × (w.advice ≡ empty) };

    ghost IsTied = { λ t k. Unit {0} };

    #[tactic(auto, using(crate::proofs::FedRows::shows_queue))]
    fn all() -> &'static str {
        "SELECT account, reference, expert, rowid FROM queue ORDER BY rowid"
    }

    fn width() -> usize {
        3
    }

    fn slot() -> usize {
        6
    }

    ghost defined = { laws.queue };

    ghost reads = { λ row. refl };

    ghost behind = { λ row. refl };

    ghost placed = { rows.queue_placed };

    ghost fed = { rows.queue };
}

impl FedRow for ExpertAdvice {
    ghost Key = { SeatName };

    ghost Value = { AdviceValue };

    ghost table = { office.advice };

    ghost put = { λ w m. record w { advice = m } };

    ghost Before = { λ t w. w.advice ≡ empty };

    ghost IsTied = { λ t k. Unit {0} };

    #[tactic(auto, using(crate::proofs::FedRows::shows_advice))]
    fn all() -> &'static str {
        "SELECT account, reference, expert, verdict, text, rowid FROM advice ORDER BY rowid"
    }

    fn width() -> usize {
        5
    }

    fn slot() -> usize {
        7
    }

    ghost defined = { laws.advice };

    ghost reads = { λ row. refl };

    ghost behind = { λ row. refl };

    ghost placed = { rows.advice_placed };

    ghost fed = { rows.advice };
}

impl FedRow for Hold {
    ghost Key = { Place };

    ghost Value = { Unit {0} };

    ghost table = { office.holds };

    ghost put = { λ w m. record w { entries = marked m w.entries } };

    ghost Before = { AreUnmarked };

    ghost IsTied = { ExpiresIn };

    #[tactic(auto, using(crate::proofs::FedRows::shows_holds))]
    fn all() -> &'static str {
        "SELECT registry, value, rowid FROM holds ORDER BY rowid"
    }

    fn width() -> usize {
        2
    }

    fn slot() -> usize {
        10
    }

    ghost defined = { laws.holds };

    ghost reads = { λ row. refl };

    ghost behind = { λ row. refl };

    ghost placed = { rows.holds_placed };

    ghost fed = { rows.holds };
}

impl FedRow for Minute {
    ghost Key = { RequestName };

    ghost Value = { List ℕ };

    ghost table = { office.minutes };

    ghost put = { λ w m. record w { requests = minuted m w.requests } };

    ghost Before = { AreUnminuted };

    ghost IsTied = { RenewsIn };

    #[tactic(auto, using(crate::proofs::FedRows::shows_minutes))]
    fn all() -> &'static str {
        "SELECT account, reference, minute, rowid FROM minutes ORDER BY rowid"
    }

    fn width() -> usize {
        3
    }

    fn slot() -> usize {
        11
    }

    ghost defined = { laws.minutes };

    ghost reads = { λ row. refl };

    ghost behind = { λ row. refl };

    ghost placed = { rows.minutes_placed };

    ghost fed = { rows.minutes };
}

impl FedRow for Link {
    ghost Key = { LinkName };

    ghost Value = { Unit {0} };

    ghost table = { office.agents };

    ghost put = { λ w m. record w { agents = m } };

    ghost Before = { λ t w. w.agents ≡ empty };

    ghost IsTied = { λ t k. Unit {0} };

    #[tactic(auto, using(crate::proofs::FedRows::shows_agents))]
    fn all() -> &'static str {
        "SELECT principal, agent, rowid FROM agents ORDER BY rowid"
    }

    fn width() -> usize {
        2
    }

    fn slot() -> usize {
        12
    }

    ghost defined = { laws.agents };

    ghost reads = { λ row. refl };

    ghost behind = { λ row. refl };

    ghost placed = { rows.agents_placed };

    ghost fed = { rows.agents };
}
