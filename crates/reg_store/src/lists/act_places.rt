//! Where the acts about requests are in a journal.
ghost use Rattle.std.specs.Prelude.{◌≡◌, ◌+◌, ◌<◌, [], fold, filter, IfOk, OnErr, OnOk, IsSome, length};
ghost use Rattle.std.specs.FinMap.{get};
ghost use Rattle.reg_maps.specs.Groups.{pair_map};
ghost use Rattle.reg_maps.specs.Maps.{text_cmp};
ghost use Rattle.reg_core.specs.Arrivals.{arrival};
ghost use Rattle.reg_core.specs.Journal.{is_about};
ghost use Rattle.reg_core.specs.World.{RequestName};
ghost use Rattle.reg_store.specs.Maps.{HaveSameItems};
ghost use Rattle.reg_store.specs.Lists.ActPlaces.{AreActPlaces, arrived_at, not_come};
ghost use Rattle.reg_store.specs.Lists.ActPlaces.{places_held, with_place};
ghost use Rattle.reg_store.specs.Lists.Journal.{journal_of};

use crate::groups::{push_item, put_row, row_in};
use crate::lists::acts::acts_at;
use reg_core::journal::{Act, Arrival, Deed};
use reg_core::rows::Rows;
use reg_core::text::{Account, Ref};
use std::alloc::{AllocError, Global};
use std::collections::BTreeMap;

type PlaceLists = BTreeMap<Account, BTreeMap<Ref, Vec<usize>>>;

/// Where the acts about each request are, by account and reference, among the first acts of a
/// journal. Acts that are made later are noted when a request is next looked up.
#[derive(Drop)]
pub struct ActPlaces {
    lists: PlaceLists,
    noted: usize,
}

impl ActPlaces {
    /// Before any act.
    pub fn new(alloc: Global) -> Self
        ensures { AreActPlaces result [] }
    {
        ActPlaces {
            lists: BTreeMap::new(alloc),
            noted: 0,
        }
    }

    /// The acts about a request among all these, the latest of which is last. O(log n + rows), and
    /// O(log n) for each act that is noted for the first time.
    pub fn about(
        &mut self,
        alloc: Global,
        acts: &[Act],
        account: &Account,
        reference: &Ref,
    ) -> Result<Rows<Act>, AllocError>
        requires { AreActPlaces self.old acts.now }
        ensures found { IfOk result (λ rows.
            rows ≡ filter (is_about (account.now, reference.now)) acts.now) }
        ensures in_step { AreActPlaces self.new acts.now }
    {
        self.note_all(alloc, acts)?;
        acts_at(alloc, acts, self.places(account, reference))
    }

    /// When a request came, as all these acts have it, the latest of which is last. O(log n) and
    /// one step for each act about it, and O(log n) for each act that is noted for the first time.
    pub fn find(
        &mut self,
        alloc: Global,
        acts: &[Act],
        account: &Account,
        reference: &Ref,
    ) -> Result<Arrival, AllocError>
        requires { AreActPlaces self.old acts.now }
        ensures found { IfOk result (λ found.
            found ≡ arrival (journal_of acts.now) (account.now, reference.now)) }
        ensures in_step { AreActPlaces self.new acts.now }
    {
        self.note_all(alloc, acts)?;
        Ok(last_arrival(acts, self.places(account, reference)))
    }

    // Notes the acts that are not noted yet; where there is no memory, the first of them.
    fn note_all(&mut self, alloc: Global, acts: &[Act]) -> Result<(), AllocError>
        requires { AreActPlaces self.old acts.now }
        ensures in_step { AreActPlaces self.new acts.now }
        ensures all { OnOk result (self.new.noted ≡ length acts.now) }
    {
        for place in self.noted..acts.len() {
            self.note(alloc, acts, place)?;
        }
        Ok(())
    }

    // Notes the act at this place, the first that is not noted yet.
    fn note(&mut self, alloc: Global, acts: &[Act], place: usize) -> Result<(), AllocError>
        requires in_step { AreActPlaces self.old acts.now }
        requires next { place ≡ self.old.noted }
        requires more { place < length acts.now }
        ensures in_step { AreActPlaces self.new acts.now }
        ensures noted { OnOk result (self.new.noted ≡ place + 1) }
    {
        put_place(alloc, &mut self.lists, &acts[place], place)?;
        self.noted = place + 1;
        Ok(())
    }

    // Where the acts about a request are among those that were noted, in order.
    fn places(&self, account: &Account, reference: &Ref) -> &[usize]
        ensures { result.now ≡ places_held self.now.lists (account.now, reference.now) }
    {
        match row_in(&self.lists, account, reference) {
            Some(places) => places.as_slice(),
            None => &[],
        }
    }
}

// Adds the place of an act to the list of its request, if it is about one.
fn put_place(
    alloc: Global,
    lists: &mut PlaceLists,
    act: &Act,
    place: usize,
) -> Result<(), AllocError>
    ensures ok { OnOk result ((name : RequestName) → places_held lists.new name
        ≡ with_place name act.now place (places_held lists.old name)) }
    ensures err { OnErr result ((name : RequestName) → places_held lists.new name
        ≡ places_held lists.old name) }
{
    let Some(name) = act.deed.request() else {
        return Ok(());
    };
    open_list(alloc, lists, name.0, name.1)?;
    push_item(lists, &name.0, &name.1, place)
}

// Gives a request a list, if it has none.
fn open_list(
    alloc: Global,
    lists: &mut PlaceLists,
    account: Account,
    reference: Ref,
) -> Result<(), AllocError>
    ensures same { HaveSameItems (pair_map text_cmp text_cmp lists.old)
        (pair_map text_cmp text_cmp lists.new) }
    ensures there { OnOk result (IsSome (get (pair_map text_cmp text_cmp lists.new)
        (account, reference))) }
{
    if row_in(lists, &account, &reference).is_some() {
        return Ok(());
    }
    put_row(alloc, lists, account, reference, Vec::new(alloc))
}

// When a request came, where the acts about it are at these places.
fn last_arrival(acts: &[Act], places: &[usize]) -> Arrival
    ensures { result ≡ fold (arrived_at acts.now) not_come places.now }
{
    let mut found = Arrival {
        number: 0,
        moment: None,
    };
    for place in places {
        found = arrival_at(acts, found, *place);
    }
    found
}

// When a request came, if it did by the act at this place, and else what was found before.
fn arrival_at(acts: &[Act], found: Arrival, place: usize) -> Arrival
    ensures { result ≡ arrived_at acts.now found place }
{
    let Some(act) = acts.get(place) else {
        return found;
    };
    match act.deed {
        Deed::Submit(_, _) => Arrival {
            number: place as u64 + 1,
            moment: act.stamp.moment,
        },
        _ => found,
    }
}
