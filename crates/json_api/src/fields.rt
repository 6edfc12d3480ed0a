//! The members that lines have, and the rows of the table of lines (RFC 8259 section 4).

ghost use Rattle.std.specs.Prelude.{◌≡◌};
ghost use Rattle.std.specs.Str.{bytes_eq};
ghost use Rattle.json_api.specs.Names.{name_of, place_of, kind_of, field_named};
ghost use Rattle.json_api.specs.Table.{row_named, command_of};

/// A member that some line of the table has. They stand in byte order of their names.
#[derive(Clone, Copy, Debug, PartialEq, Eq)]
pub enum Field {
    Add,
    Ca,
    Child,
    Command,
    Looks,
    Parent,
    Remove,
    Resources,
    Serial,
    Signer,
}

/// What a member's value has to be.
#[derive(Clone, Copy, Debug, PartialEq, Eq)]
pub enum Kind {
    /// The text of a row's command.
    Row,
    /// The text of a name.
    Name,
    /// A whole number below 2^32.
    Number,
    /// A whole number below 2^64.
    Serial,
    /// How often is looked: 1 to 1,000,000,000 times.
    Looks,
    /// An object of the texts of three sets.
    Resources,
    /// A list of origins' texts.
    Origins,
}

/// A row of the table: what the member `command` says.
#[derive(Clone, Copy, Debug, PartialEq, Eq)]
pub enum Row {
    Add,
    Delete,
    ParentsAdd,
    ChildrenAdd,
    ChildrenUpdate,
    ChildrenRemove,
    ChildrenSuspend,
    ChildrenUnsuspend,
    RoasUpdate,
    KeyrollInit,
    KeyrollActivate,
    Publish,
    Serial,
    Await,
    List,
    Show,
    RoasList,
    HistoryCommands,
}

pub(crate) const FIELDS: [Field; 10] = [
    Field::Add,
    Field::Ca,
    Field::Child,
    Field::Command,
    Field::Looks,
    Field::Parent,
    Field::Remove,
    Field::Resources,
    Field::Serial,
    Field::Signer,
];

// Whether the text is that word. The lengths are compared here, which spares a call for most words.
#[tactic(auto, using(crate::proofs::Named::unlike_long))]
fn is_word(text: &str, word: &str) -> bool
    ensures { result ≡ bytes_eq text.now word.now }
{
    text.len() == word.len() && text == word
}

impl Field {
    /// The member's name.
    pub(crate) fn name(self) -> &'static str
        ensures { result.now ≡ name_of self }
    {
        match self {
            Field::Add => "add",
            Field::Ca => "ca",
            Field::Child => "child",
            Field::Command => "command",
            Field::Looks => "looks",
            Field::Parent => "parent",
            Field::Remove => "remove",
            Field::Resources => "resources",
            Field::Serial => "serial",
            Field::Signer => "signer",
        }
    }

    /// The field of that name.
    pub(crate) fn named(name: &str) -> Option<Field>
        ensures { result ≡ field_named name.now }
    {
        match name {
            // What stands in most lines comes first.
            _ if is_word(name, "command") => Some(Field::Command),
            _ if is_word(name, "ca") => Some(Field::Ca),
            _ if is_word(name, "add") => Some(Field::Add),
            _ if is_word(name, "remove") => Some(Field::Remove),
            _ if is_word(name, "child") => Some(Field::Child),
            _ if is_word(name, "looks") => Some(Field::Looks),
            _ if is_word(name, "parent") => Some(Field::Parent),
            _ if is_word(name, "resources") => Some(Field::Resources),
            _ if is_word(name, "serial") => Some(Field::Serial),
            _ if is_word(name, "signer") => Some(Field::Signer),
            _ => None,
        }
    }

    pub(crate) fn place(self) -> usize
        ensures { result ≡ place_of self }
    {
        match self {
            Field::Add => 0,
            Field::Ca => 1,
            Field::Child => 2,
            Field::Command => 3,
            Field::Looks => 4,
            Field::Parent => 5,
            Field::Remove => 6,
            Field::Resources => 7,
            Field::Serial => 8,
            Field::Signer => 9,
        }
    }

    pub(crate) fn kind(self) -> Kind
        ensures { result ≡ kind_of self }
    {
        match self {
            Field::Add | Field::Remove => Kind::Origins,
            Field::Ca | Field::Child | Field::Parent => Kind::Name,
            Field::Command => Kind::Row,
            Field::Looks => Kind::Looks,
            Field::Resources => Kind::Resources,
            Field::Serial => Kind::Serial,
            Field::Signer => Kind::Number,
        }
    }
}

impl Row {
    /// The row of that command.
    pub(crate) fn named(text: &str) -> Option<Row>
        ensures { result ≡ row_named text.now }
    {
        match text {
            // What most lines say comes first.
            _ if is_word(text, "roas update") => Some(Row::RoasUpdate),
            _ if is_word(text, "add") => Some(Row::Add),
            _ if is_word(text, "delete") => Some(Row::Delete),
            _ if is_word(text, "parents add") => Some(Row::ParentsAdd),
            _ if is_word(text, "children add") => Some(Row::ChildrenAdd),
            _ if is_word(text, "children update") => Some(Row::ChildrenUpdate),
            _ if is_word(text, "children remove") => Some(Row::ChildrenRemove),
            _ if is_word(text, "children suspend") => Some(Row::ChildrenSuspend),
            _ if is_word(text, "children unsuspend") => Some(Row::ChildrenUnsuspend),
            _ if is_word(text, "keyroll init") => Some(Row::KeyrollInit),
            _ if is_word(text, "keyroll activate") => Some(Row::KeyrollActivate),
            _ if is_word(text, "publish") => Some(Row::Publish),
            _ if is_word(text, "serial") => Some(Row::Serial),
            _ if is_word(text, "await") => Some(Row::Await),
            _ if is_word(text, "list") => Some(Row::List),
            _ if is_word(text, "show") => Some(Row::Show),
            _ if is_word(text, "roas list") => Some(Row::RoasList),
            _ if is_word(text, "history commands") => Some(Row::HistoryCommands),
            _ => None,
        }
    }

    /// The text of the row's command.
    pub(crate) fn command(self) -> &'static str
        ensures { result.now ≡ command_of self }
    {
        match self {
            Row::Add => "add",
            Row::Delete => "delete",
            Row::ParentsAdd => "parents add",
            Row::ChildrenAdd => "children add",
            Row::ChildrenUpdate => "children update",
            Row::ChildrenRemove => "children remove",
            Row::ChildrenSuspend => "children suspend",
            Row::ChildrenUnsuspend => "children unsuspend",
            Row::RoasUpdate => "roas update",
            Row::KeyrollInit => "keyroll init",
            Row::KeyrollActivate => "keyroll activate",
            Row::Publish => "publish",
            Row::Serial => "serial",
            Row::Await => "await",
            Row::List => "list",
            Row::Show => "show",
            Row::RoasList => "roas list",
            Row::HistoryCommands => "history commands",
        }
    }
}
