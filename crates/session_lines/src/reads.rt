//! What reads are answered: texts of what the pass then knows.
ghost use Rattle.std.specs.Prelude.{◌≡◌, ◌⊎◌, map, IfOk};
ghost use Rattle.json_api.specs.Refused.{refused_spelling};
ghost use Rattle.json_api.specs.Texts.{list_spelling, show_spelling, roas_spelling};
ghost use Rattle.json_api.specs.declared.refusals.Refused.TheVariants as refused;
ghost use Rattle.manager.specs.Passes.{HasLearned};
ghost use Rattle.session_lines.specs.Texts.{list_line_of, stage_word, show_reply_of, roa_word, roa_line_of, IsListText, IsShowText, IsRoasText, IsHistoryText};

use disk_api::Disk;
use json_api::{
    ListLine, Refused, RoaLine, RoaWord, Shown as ShowReply, StageWord, history_text, list_text,
    refused_into, roas_text, show_text,
};
use manager::{ListRow, LockedDesks, Names, Pass, ReadFault, RoaState, Shown, ShownRoa};
use names::Name;
use notice_board::ShownStage;
use std::alloc::{AllocError, Global};
use std::sync::Wait;

/// The text of `list`.
pub(crate) fn read_list<N: Names, D: Disk, R: Wait>(
    rt: &R,
    alloc: Global,
    desks: &LockedDesks<N, D>,
    pass: &mut Pass<N>,
) -> Result<Vec<u8>, AllocError>
    ensures learned { HasLearned pass.old pass.new }
    ensures text { IfOk result (λ text. IsListText pass.new text.items) }
{
    let rows = desks.list(rt, alloc, pass)?;
    let lines = list_lines(alloc, rows.as_slice())?;
    list_text(alloc, lines.as_slice())
}

fn list_lines(alloc: Global, rows: &[ListRow]) -> Result<Vec<ListLine>, AllocError>
    ensures { IfOk result (λ lines. lines.items ≡ map list_line_of rows.now) }
{
    let mut lines = Vec::with_capacity(alloc, rows.len())?;
    for row in rows {
        let ListRow { name, deleted } = *row;
        lines.push(ListLine { name, deleted })?;
    }
    Ok(lines)
}

/// The text of `show`.
pub(crate) fn read_show<N: Names, D: Disk, R: Wait>(
    rt: &R,
    alloc: Global,
    desks: &LockedDesks<N, D>,
    pass: &mut Pass<N>,
    name: &Name,
) -> Result<Vec<u8>, AllocError>
    ensures learned { HasLearned pass.old pass.new }
    ensures text { IfOk result (λ text. IsShowText name.now pass.new text.items) }
{
    match desks.show(rt, alloc, pass, name) {
        Ok(shown) => shown_text(alloc, name, shown),
        Err(fault) => unread_text(alloc, name, fault),
    }
}

fn shown_text(alloc: Global, name: &Name, shown: Shown) -> Result<Vec<u8>, AllocError>
    ensures { IfOk result (λ text. text.items ≡ show_spelling (show_reply_of name.now shown) shown.children) }
{
    let Shown {
        parent,
        children,
        row,
        serial,
    } = shown;
    let stage = stage_word(row.stage);
    let reply = ShowReply {
        authority: *name,
        certified: row.certified,
        parent,
        serial,
        stage,
    };
    show_text(alloc, &reply, children.as_slice())
}

fn stage_word(stage: ShownStage) -> StageWord
    ensures { result ≡ stage_word stage }
{
    match stage {
        ShownStage::Absent => StageWord::None,
        ShownStage::Steady => StageWord::Steady,
        ShownStage::Staged => StageWord::Staged,
        ShownStage::Retiring => StageWord::Retiring,
    }
}

/// The text of `roas list`.
pub(crate) fn read_roas<N: Names, D: Disk, R: Wait>(
    rt: &R,
    alloc: Global,
    desks: &LockedDesks<N, D>,
    pass: &mut Pass<N>,
    name: &Name,
) -> Result<Vec<u8>, AllocError>
    ensures learned { HasLearned pass.old pass.new }
    ensures text { IfOk result (λ text. IsRoasText name.now pass.new text.items) }
{
    match desks.roas(rt, alloc, pass, name) {
        Ok(roas) => shown_roas_text(alloc, name, roas.rows.as_slice(), roas.serial),
        Err(fault) => unread_text(alloc, name, fault),
    }
}

fn shown_roas_text(
    alloc: Global,
    name: &Name,
    rows: &[ShownRoa],
    serial: u64,
) -> Result<Vec<u8>, AllocError>
    ensures { IfOk result (λ text. text.items ≡ roas_spelling name.now (map roa_line_of rows.now) serial) }
{
    let lines = roa_lines(alloc, rows)?;
    roas_text(alloc, name, lines.as_slice(), serial)
}

fn roa_lines(alloc: Global, rows: &[ShownRoa]) -> Result<Vec<RoaLine>, AllocError>
    ensures { IfOk result (λ lines. lines.items ≡ map roa_line_of rows.now) }
{
    let mut lines = Vec::with_capacity(alloc, rows.len())?;
    for row in rows {
        lines.push(roa_line(row))?;
    }
    Ok(lines)
}

fn roa_line(row: &ShownRoa) -> RoaLine
    ensures { result ≡ roa_line_of row.now }
{
    RoaLine {
        origin: row.origin,
        state: roa_word(row.state),
    }
}

fn roa_word(state: RoaState) -> RoaWord
    ensures { result ≡ roa_word state }
{
    match state {
        RoaState::Published => RoaWord::Published,
        RoaState::Held => RoaWord::Held,
        RoaState::Pending => RoaWord::Pending,
    }
}

/// The text of `history commands`.
pub(crate) fn read_history<N: Names, D: Disk, R: Wait>(
    rt: &R,
    alloc: Global,
    desks: &LockedDesks<N, D>,
    pass: &mut Pass<N>,
    name: &Name,
) -> Result<Vec<u8>, AllocError>
    ensures learned { HasLearned pass.old pass.new }
    ensures text { IfOk result (λ text. IsHistoryText name.now pass.new text.items) }
{
    match desks.history(rt, alloc, pass, name) {
        Ok(commands) => history_text(alloc, name, commands.as_slice()),
        Err(fault) => unread_text(alloc, name, fault),
    }
}

// Why an authority isn't read: the text says that none has the name, or memory is wanting.
fn unread_text(alloc: Global, name: &Name, fault: ReadFault) -> Result<Vec<u8>, AllocError>
    ensures { IfOk result (λ text. (fault ≡ ReadFault.NoSuchAuthority) × (text.items ≡ refused_spelling (refused.NoSuchAuthority name.now))) }
{
    match fault {
        ReadFault::NoSuchAuthority => refused_text(
            alloc,
            &Refused::NoSuchAuthority { name: *name },
        ),
        ReadFault::Memory => Err(AllocError),
    }
}

fn refused_text(alloc: Global, refused: &Refused) -> Result<Vec<u8>, AllocError>
    ensures { IfOk result (λ text. text.items ≡ refused_spelling refused.now) }
{
    let mut text = Vec::with_capacity(alloc, 200)?;
    refused_into(&mut text, refused);
    Ok(text)
}
