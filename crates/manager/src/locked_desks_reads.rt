//! Reads of the desks: each takes the locks that it needs, one after another.
ghost use Rattle.std.specs.Prelude.{◌≡◌, ◌≢◌, ◌<◌, ◌≤◌, ℕ, length, IfOk, IfErr};
ghost use Rattle.authority_book.specs.Settings.{Settings};
ghost use Rattle.authority_book.specs.Verdict.{most_authorities};
ghost use Rattle.manager.specs.Lists.{seat_at};
ghost use Rattle.manager.specs.Passes.{Knows, ComesTo, KnowsMore, HasLearned, anchor_desk};
ghost use Rattle.manager.specs.Reading.{IsTree, IsUnread, AreListRows, IsShown, IsState, AreShownRoas, AreRoas, IsHistory};

use crate::locked_desks::ANCHOR;
use crate::{ListRow, LockedDesks, Names, Pass, ReadFault, RoaState, Shown, ShownRoa, ShownRoas};
use authority_book::{Child, Command, NameRow};
use desk_core::commands_are_determined;
use disk_api::Disk;
use entitle::is_certified;
use items::Items;
use names::Name;
use notice_board::SheetRow;
use origins::Origin;
use std::alloc::{AllocError, Global};
use std::sync::Wait;

// The names of the tree, and whether the trust anchor is deleted.
#[derive(Drop)]
struct Tree {
    names: Vec<NameRow>,
    deleted: bool,
}

// An authority's parent and children.
#[derive(Drop)]
struct Family {
    parent: Option<Name>,
    children: Items<Child>,
}

impl<N: Names, D: Disk> LockedDesks<N, D> {
    /// All names of the tree, in the order of their desks, and whether their authorities are deleted.
    pub fn list<R: Wait>(
        &self,
        rt: &R,
        alloc: Global,
        pass: &mut Pass<N>,
    ) -> Result<Vec<ListRow>, AllocError>
        ensures learned { HasLearned pass.old pass.new }
        ensures rows { IfOk result (λ rows. AreListRows pass.new.seats rows.items) }
    {
        let tree = self.tree(rt, alloc, pass)?;
        self.list_rows(rt, alloc, pass, &tree)
    }

    // The names of the tree, by the whole list of the anchor's desk.
    fn tree<R: Wait>(&self, rt: &R, alloc: Global, pass: &mut Pass<N>) -> Result<Tree, AllocError>
        ensures rest { pass.new ≡ record pass.old { seats = pass.new.seats } }
        ensures more { KnowsMore pass.old.seats pass.new.seats }
        ensures tree { IfOk result (λ tree. IsTree pass.new.seats tree.names.items tree.deleted) }
        ensures limit { IfOk result (λ tree. length tree.names.items ≤ most_authorities) }
    {
        let mut guard = self.locked(rt, ANCHOR);
        let anchor = &mut *guard;
        pass.learn(alloc, self.word(ANCHOR), ANCHOR, anchor);
        let config = anchor.config();
        let names = config.names().to_vec(alloc)?;
        Ok(Tree {
            names,
            deleted: config.is_deleted(),
        })
    }

    // A row for each of the names, which are those of the tree.
    fn list_rows<R: Wait>(
        &self,
        rt: &R,
        alloc: Global,
        pass: &mut Pass<N>,
        tree: &Tree,
    ) -> Result<Vec<ListRow>, AllocError>
        requires tree { IsTree pass.old.seats tree.now.names.items tree.now.deleted }
        requires limit { length tree.now.names.items ≤ most_authorities }
        ensures rest { pass.new ≡ record pass.old { seats = pass.new.seats } }
        ensures more { KnowsMore pass.old.seats pass.new.seats }
        ensures rows { IfOk result (λ rows. AreListRows pass.new.seats rows.items) }
    {
        let mut rows = Vec::with_capacity(alloc, tree.names.len())?;
        for desk in 0..tree.names.len() {
            let deleted = self.deleted(rt, alloc, pass, desk, tree);
            rows.push(ListRow {
                name: tree.names[desk].name,
                deleted,
            })?;
        }
        Ok(rows)
    }

    // Whether the authority of that desk is deleted. Of the anchor it was found with the names.
    fn deleted<R: Wait>(
        &self,
        rt: &R,
        alloc: Global,
        pass: &mut Pass<N>,
        desk: usize,
        tree: &Tree,
    ) -> bool
        requires desk { desk < most_authorities }
        requires tree { IsTree pass.old.seats tree.now.names.items tree.now.deleted }
        ensures rest { pass.new ≡ record pass.old { seats = pass.new.seats } }
        ensures more { KnowsMore pass.old.seats pass.new.seats }
        ensures others { (other : ℕ) → other ≢ desk → seat_at pass.new.seats other ≡ seat_at pass.old.seats other }
        ensures anchor { seat_at pass.new.seats anchor_desk ≡ seat_at pass.old.seats anchor_desk }
        ensures deleted { (settings : Settings) × ComesTo pass.new.seats desk settings × (result ≡ settings.deleted) }
    {
        if desk == ANCHOR {
            return tree.deleted;
        }
        let mut guard = self.locked(rt, desk);
        let found = &mut *guard;
        pass.learn(alloc, self.word(desk), desk, found);
        found.config().is_deleted()
    }

    /// The parent and the children of the authority of that name as they are configured, and what the edition
    /// that is shown says of it.
    pub fn show<R: Wait>(
        &self,
        rt: &R,
        alloc: Global,
        pass: &mut Pass<N>,
        name: &Name,
    ) -> Result<Shown, ReadFault>
        ensures learned { HasLearned pass.old pass.new }
        ensures shown { IfOk result (IsShown name.now pass.new) }
        ensures unread { IfErr result (λ fault. IsUnread fault name.now pass.new.seats) }
    {
        // Names that are listed stay where they are.
        commands_are_determined();
        let Some(desk) = self.find(rt, alloc, pass, name) else {
            return Err(ReadFault::NoSuchAuthority);
        };
        let family = self.family(rt, alloc, pass, desk);
        pass.desks();
        let family = family?;
        let row = pass.row(alloc, desk as u32)?;
        Ok(Shown {
            parent: family.parent,
            children: family.children,
            row,
            serial: pass.last_seen(),
        })
    }

    // The parent and the children of the authority of that desk.
    fn family<R: Wait>(
        &self,
        rt: &R,
        alloc: Global,
        pass: &mut Pass<N>,
        desk: usize,
    ) -> Result<Family, AllocError>
        requires { desk < most_authorities }
        ensures rest { pass.new ≡ record pass.old { seats = pass.new.seats } }
        ensures more { KnowsMore pass.old.seats pass.new.seats }
        ensures family { IfOk result (λ family. (settings : Settings) × ComesTo pass.new.seats desk settings
            × (family.parent ≡ settings.parent) × (family.children ≡ settings.children)) }
    {
        let mut guard = self.locked(rt, desk);
        let found = &mut *guard;
        pass.learn(alloc, self.word(desk), desk, found);
        let config = found.config();
        let children = copies(alloc, config.children())?;
        Ok(Family {
            parent: config.parent(),
            children: Items::new(children),
        })
    }

    /// The origins of the authority of that name as they are configured, and where each stands by the edition
    /// that is shown.
    pub fn roas<R: Wait>(
        &self,
        rt: &R,
        alloc: Global,
        pass: &mut Pass<N>,
        name: &Name,
    ) -> Result<ShownRoas, ReadFault>
        ensures learned { HasLearned pass.old pass.new }
        ensures roas { IfOk result (AreRoas name.now pass.new) }
        ensures unread { IfErr result (λ fault. IsUnread fault name.now pass.new.seats) }
    {
        // Names that are listed stay where they are.
        commands_are_determined();
        let Some(desk) = self.find(rt, alloc, pass, name) else {
            return Err(ReadFault::NoSuchAuthority);
        };
        let origins = self.origins(rt, alloc, pass, desk);
        pass.desks();
        let origins = origins?;
        let row = pass.row(alloc, desk as u32)?;
        let rows = shown_roas(alloc, &row, origins.as_slice())?;
        Ok(ShownRoas {
            rows: Items::new(rows),
            serial: pass.last_seen(),
        })
    }

    // The origins of the authority of that desk.
    fn origins<R: Wait>(
        &self,
        rt: &R,
        alloc: Global,
        pass: &mut Pass<N>,
        desk: usize,
    ) -> Result<Vec<Origin>, AllocError>
        requires { desk < most_authorities }
        ensures rest { pass.new ≡ record pass.old { seats = pass.new.seats } }
        ensures more { KnowsMore pass.old.seats pass.new.seats }
        ensures origins { IfOk result (λ origins. (settings : Settings) × ComesTo pass.new.seats desk settings
            × (origins.items ≡ settings.origins)) }
    {
        let mut guard = self.locked(rt, desk);
        let found = &mut *guard;
        pass.learn(alloc, self.word(desk), desk, found);
        found.config().origins().to_vec(alloc)
    }

    /// All accepted commands of the authority of that name.
    pub fn history<R: Wait>(
        &self,
        rt: &R,
        alloc: Global,
        pass: &mut Pass<N>,
        name: &Name,
    ) -> Result<Vec<Command>, ReadFault>
        ensures learned { HasLearned pass.old pass.new }
        ensures commands { IfOk result (λ commands. IsHistory name.now pass.new.seats commands.items) }
        ensures unread { IfErr result (λ fault. IsUnread fault name.now pass.new.seats) }
    {
        // Names that are listed stay where they are.
        commands_are_determined();
        let Some(desk) = self.find(rt, alloc, pass, name) else {
            return Err(ReadFault::NoSuchAuthority);
        };
        let commands = self.commands(rt, alloc, pass, desk);
        pass.desks();
        Ok(commands?)
    }

    // The accepted commands of the authority of that desk.
    fn commands<R: Wait>(
        &self,
        rt: &R,
        alloc: Global,
        pass: &mut Pass<N>,
        desk: usize,
    ) -> Result<Vec<Command>, AllocError>
        requires { desk < most_authorities }
        ensures rest { pass.new ≡ record pass.old { seats = pass.new.seats } }
        ensures more { KnowsMore pass.old.seats pass.new.seats }
        ensures commands { IfOk result (λ commands. Knows pass.new.seats desk commands.items) }
    {
        let mut guard = self.locked(rt, desk);
        let found = &mut *guard;
        pass.learn(alloc, self.word(desk), desk, found);
        found.since(alloc, 0)
    }
}

fn copies(alloc: Global, children: &[Child]) -> Result<Vec<Child>, AllocError>
    ensures { IfOk result (λ copies. copies.items ≡ children.now) }
{
    let mut copies = Vec::with_capacity(alloc, children.len())?;
    for child in children {
        copies.push(child.copy(alloc)?)?;
    }
    Ok(copies)
}

// Where an origin of an authority stands, by the authority's row.
fn state_in(row: &SheetRow, origin: &Origin) -> RoaState
    ensures { IsState row.now origin.now result }
{
    if row.published.as_slice().contains(origin) {
        return RoaState::Published;
    }
    if is_certified(&row.certified, &origin.prefix) {
        return RoaState::Pending;
    }
    RoaState::Held
}

fn shown_roas(
    alloc: Global,
    row: &SheetRow,
    origins: &[Origin],
) -> Result<Vec<ShownRoa>, AllocError>
    ensures { IfOk result (λ roas. AreShownRoas row.now origins.now roas.items) }
{
    let mut roas = Vec::with_capacity(alloc, origins.len())?;
    for origin in origins {
        roas.push(ShownRoa {
            origin: *origin,
            state: state_in(row, origin),
        })?;
    }
    Ok(roas)
}
