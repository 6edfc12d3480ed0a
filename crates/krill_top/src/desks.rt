//! The desks of a tree: commands go to the desk of their authority's name, and reads are answered from
//! what the desks have accepted.

ghost use Rattle.std.specs.Prelude.{◌≡◌, ◌<◌, ◌≤◌, ℕ, None, Some, length, get_or, slice_get, IfOk, IfSome, MatchOption};
ghost use Rattle.authority_book.specs.Listed.{place_of};
ghost use Rattle.json_api.specs.declared.refusals.Refused.TheVariants.{NoSuchAuthority};
ghost use Rattle.json_api.specs.Refused.{refused_spelling};
ghost use Rattle.desk_core.specs.View.{View};
ghost use Rattle.krill_top.specs.DeskStates.{DeskStates, most_desks, names_in, desk_named};
ghost use Rattle.krill_top.specs.Reads.{list_lines, list_reply, IsShowReply, IsRoasReply, history_reply};
ghost use Rattle.krill_top.specs.Outcomes.{Commanded, outcome_of};
ghost use Rattle.krill_top.specs.DesksInStates.{AreIn, IsNamed, Leads};
ghost use Rattle.krill_top.specs.inner.Gathered.{AreSince, IsFirstOf};
ghost use Rattle.krill_top.specs.Run as run;

use crate::command_fault::CommandFault;
use crate::reads::{roas_shown, shown};
use authority_book::{Command, Config, MOST_AUTHORITIES, NameRow};
use desk_core::Desk;
use disk_api::Disk;
use editions::Gathered;
use items::Items;
use json_api::{ListLine, Refused, history_text, list_text, refused_into};
use names::Name;
use notice_board::Sheet;
use std::alloc::{AllocError, Global};
use std::marker::Model;

/// The desk of the trust anchor, which has the names of the tree.
const ANCHOR: usize = 0;

/// How many desks there are.
pub const DESKS: usize = MOST_AUTHORITIES;

// Room for a refusal that names an authority.
const REFUSAL_ROOM: usize = 200;

/// The 64 desks of a tree, each at the place of its authority's name.
#[derive(Drop)]
pub struct Desks<D: Disk> {
    desks: Vec<Desk<D>>,
}

impl<D: Disk> Model for Desks<D> {
    ghost use Rattle.std.specs.Prelude.{◌≡◌, List, length};
    ghost use Rattle.desk_core.specs.View.{View};
    ghost use Rattle.krill_top.specs.DeskStates.{most_desks};

    ghost Value = { List (View D) };

    ghost view = { λ d. d.desks.items };

    ghost invariant = { λ d. length d.desks.items ≡ most_desks };
}

impl<D: Disk> Desks<D> {
    /// The desks in the order of their numbers.
    pub fn new(desks: Vec<Desk<D>>) -> Desks<D>
        requires { length desks.items ≡ most_desks }
        ensures { result ≡ desks.items }
    {
        Desks { desks }
    }

    /// The desks, with the commands that were accepted.
    pub fn into_inner(self) -> Vec<Desk<D>>
        ensures desks { result.items ≡ self }
        ensures all { length result.items ≡ most_desks }
    {
        self.desks
    }

    // The names of the tree.
    fn names(&self) -> &[NameRow]
        ensures names { (desk_states : DeskStates) → AreIn self.now desk_states → result.now ≡ names_in desk_states }
        ensures limit { length result.now ≤ most_desks }
    {
        self.desks[ANCHOR].config().names()
    }

    /// How many signers the names of the tree use: they have numbers below this one.
    pub fn signers_needed(&self) -> u64
        ensures { (desk_states : DeskStates) → AreIn self.now desk_states → result ≡ run.signers_needed (names_in desk_states) }
    {
        signers_needed(self.names())
    }

    // The number of the desk of the authority of that name.
    fn place_of(&self, name: &Name) -> Option<usize>
        ensures named { (desk_states : DeskStates) → AreIn self.now desk_states → result ≡ desk_named desk_states name.now }
        ensures there { IfSome result (λ place. place < most_desks) }
    {
        place_among(self.names(), name)
    }

    // The desk of the authority of that name.
    fn desk_of(&self, name: &Name) -> Option<&Desk<D>>
        ensures { (desk_states : DeskStates) → AreIn self.now desk_states
            → MatchOption result (desk_named desk_states name.now ≡ None) (λ desk. IsNamed desk_states name.now desk.now) }
    {
        match self.place_of(name) {
            Some(place) => Some(&self.desks[place]),
            None => None,
        }
    }

    /// Gives a command to the authority of that name, where `signers` signers are at hand, and answers
    /// how many commands of that authority are accepted then.
    ///
    /// At `Ok` the command is kept: each crash leaves its record.
    pub fn command(
        &mut self,
        alloc: Global,
        name: &Name,
        command: Command,
        signers: u32,
    ) -> Result<u64, CommandFault<D>>
        ensures { Leads D.Disk (λ b a. Commanded name.now command signers (outcome_of result) b a) self.old self.new }
    {
        let Some(place) = self.place_of(name) else {
            return Err(CommandFault::NoSuchAuthority);
        };
        match self.desks[place].commit(alloc, command, signers) {
            Ok(count) => Ok(count),
            Err(fault) => Err(CommandFault::of_desk(fault)),
        }
    }

    /// The commands of each desk behind the first so many that the cut counts. The cut has a number
    /// for each desk, in their order.
    pub fn since_cut(&self, alloc: Global, cut: &[u64]) -> Result<Vec<Gathered>, AllocError>
        requires desks { length cut.now ≡ most_desks }
        requires within { (number : ℕ) (desk : View D) → slice_get self.now number ≡ Some desk
            → get_or cut.now number 0 ≤ length desk.records }
        ensures { IfOk result (λ gathered. AreSince 0 self.now cut.now gathered.items) }
    {
        let mut gathered = Vec::with_capacity(alloc, DESKS)?;
        for desk in 0..DESKS {
            let from = cut[desk];
            gathered.push(Gathered {
                desk: desk as u32,
                from,
                commands: Items::new(self.desks[desk].since(alloc, from)?),
            })?;
        }
        Ok(gathered)
    }

    /// How many commands the desk of that number holds.
    pub fn held(&self, desk: usize) -> u64
        requires { desk < most_desks }
        ensures { IfSome (slice_get self.now desk) (λ d. result ≡ length d.records) }
    {
        self.desks[desk].len()
    }

    /// The first desk that holds a command, if one does, and how many it holds.
    pub fn first_held(&self) -> Option<(u32, u64)>
        ensures { (desk_states : DeskStates) → AreIn self.now desk_states → run.IsFirstHeld desk_states result }
    {
        let _ = &self.desks; // so that their number is known
        for desk in 0..DESKS {
            let held = self.held(desk);
            if held != 0 {
                return Some((desk as u32, held));
            }
        }
        None
    }

    /// The first so many commands of the desk of that number.
    pub fn first(&self, alloc: Global, desk: usize, count: u64) -> Result<Gathered, AllocError>
        requires desk { desk < most_desks }
        requires held { IfSome (slice_get self.now desk) (λ d. count ≤ length d.records) }
        ensures { IfOk result (λ first. IfSome (slice_get self.now desk) (λ d. IsFirstOf desk d count first)) }
    {
        let mut commands = self.desks[desk].since(alloc, 0)?;
        commands.truncate(count as usize);
        Ok(Gathered {
            desk: desk as u32,
            from: 0,
            commands: Items::new(commands),
        })
    }

    /// The reply to `list`: all names of the tree, in their order.
    pub fn list(&self, alloc: Global) -> Result<Vec<u8>, AllocError>
        ensures { IfOk result (λ text. (desk_states : DeskStates) → AreIn self.now desk_states → text.items ≡ list_reply desk_states) }
    {
        let lines = self.list_lines(alloc)?;
        list_text(alloc, lines.as_slice())
    }

    fn list_lines(&self, alloc: Global) -> Result<Vec<ListLine>, AllocError>
        ensures { IfOk result (λ lines. (desk_states : DeskStates) → AreIn self.now desk_states → lines.items ≡ list_lines desk_states 0 (names_in desk_states)) }
    {
        let names = self.names();
        let mut lines = Vec::with_capacity(alloc, names.len())?;
        for place in 0..names.len() {
            let name = names[place].name;
            let deleted = self.desks[place].config().is_deleted();
            lines.push(ListLine { name, deleted })?;
        }
        Ok(lines)
    }

    /// The reply to `show`: an authority's state.
    pub fn show(&self, alloc: Global, sheet: &Sheet, name: &Name) -> Result<Vec<u8>, AllocError>
        ensures { IfOk result (λ text. (desk_states : DeskStates) → AreIn self.now desk_states → IsShowReply desk_states sheet.now name.now text.items) }
    {
        match self.place_of(name) {
            Some(place) => shown(alloc, name, self.desks[place].config(), sheet, place),
            None => no_such_authority(alloc, name),
        }
    }

    /// The reply to `roas list`: an authority's origins.
    pub fn roas(&self, alloc: Global, sheet: &Sheet, name: &Name) -> Result<Vec<u8>, AllocError>
        ensures { IfOk result (λ text. (desk_states : DeskStates) → AreIn self.now desk_states → IsRoasReply desk_states sheet.now name.now text.items) }
    {
        match self.place_of(name) {
            Some(place) => roas_shown(alloc, name, self.desks[place].config(), sheet, place),
            None => no_such_authority(alloc, name),
        }
    }

    /// The reply to `history commands`: an authority's commands, all that were accepted.
    pub fn history(&self, alloc: Global, name: &Name) -> Result<Vec<u8>, AllocError>
        ensures { IfOk result (λ text. (desk_states : DeskStates) → AreIn self.now desk_states → text.items ≡ history_reply desk_states name.now) }
    {
        match self.desk_of(name) {
            Some(desk) => {
                let commands = desk.since(alloc, 0)?;
                history_text(alloc, name, commands.as_slice())
            }
            None => no_such_authority(alloc, name),
        }
    }
}

fn place_among(names: &[NameRow], name: &Name) -> Option<usize>
    ensures place { result ≡ place_of names.now name.now }
    ensures there { IfSome result (λ place. place < length names.now) }
{
    names
        .iter()
        .position(|row| row.name.as_bytes() == name.as_bytes())
}

fn signers_needed(names: &[NameRow]) -> u64
    ensures { result ≡ run.signers_needed names.now }
{
    let mut needed = 0;
    for row in names {
        needed = std::cmp::max(needed, u64::from(row.signer) + 1);
    }
    needed
}

fn no_such_authority(alloc: Global, name: &Name) -> Result<Vec<u8>, AllocError>
    ensures { IfOk result (λ text. text.items ≡ refused_spelling (NoSuchAuthority name.now)) }
{
    let mut text = Vec::with_capacity(alloc, REFUSAL_ROOM)?;
    refused_into(&mut text, &Refused::NoSuchAuthority { name: *name });
    Ok(text)
}
