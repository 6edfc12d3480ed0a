//! Why a command is refused.

ghost use Rattle.std.specs.Prelude.{◌≡◌};
ghost use Rattle.authority_book.specs.Refusals.{code_of, name_of};

use origins::Origin;

/// Why a command is refused. A refused command changes nothing.
#[derive(Clone, Copy, Debug, PartialEq)]
pub enum Refusal {
    /// The authority is deleted.
    Deleted,
    /// The name is listed already.
    NameTaken,
    /// As many authorities are listed as there may be.
    TooManyAuthorities,
    /// No signer has that number.
    NoSuchSigner,
    /// The authority has a parent already.
    HasParent,
    /// The authority has no parent.
    NoParent,
    /// The child is there already.
    ChildThere,
    /// There is no such child.
    NoSuchChild,
    /// The authority has as many children as it may have.
    TooManyChildren,
    /// The child is suspended already.
    Suspended,
    /// The child isn't suspended.
    NotSuspended,
    /// The origin is configured already, and the command doesn't remove it.
    OriginThere { origin: Origin },
    /// The origin stands twice in one of the command's lists.
    OriginTwice { origin: Origin },
    /// The origin is to be removed, and isn't configured.
    NoSuchOrigin { origin: Origin },
    /// More than 1,024 origins would be configured: so many.
    TooManyOrigins { after: u64 },
    /// A key rollover was begun and isn't activated yet.
    RollGoing,
    /// Every key rollover that was begun is activated.
    NoRoll,
    /// The anchor alone takes this command.
    AnchorOnly,
    /// The anchor doesn't take this command.
    NotForAnchor,
}

impl Refusal {
    /// The refusal's number in replies.
    pub fn code(&self) -> u32
        ensures { result ≡ code_of self.now }
    {
        match self {
            Refusal::Deleted => 1,
            Refusal::NameTaken => 2,
            Refusal::TooManyAuthorities => 3,
            Refusal::NoSuchSigner => 4,
            Refusal::HasParent => 5,
            Refusal::NoParent => 6,
            Refusal::ChildThere => 7,
            Refusal::NoSuchChild => 8,
            Refusal::TooManyChildren => 9,
            Refusal::Suspended => 10,
            Refusal::NotSuspended => 11,
            Refusal::OriginThere { .. } => 12,
            Refusal::OriginTwice { .. } => 13,
            Refusal::NoSuchOrigin { .. } => 14,
            Refusal::TooManyOrigins { .. } => 15,
            Refusal::RollGoing => 16,
            Refusal::NoRoll => 17,
            Refusal::AnchorOnly => 18,
            Refusal::NotForAnchor => 19,
        }
    }

    /// The refusal's name in replies.
    pub fn name(&self) -> &'static str
        ensures { result.now ≡ name_of self.now }
    {
        match self {
            Refusal::Deleted => "Deleted",
            Refusal::NameTaken => "NameTaken",
            Refusal::TooManyAuthorities => "TooManyAuthorities",
            Refusal::NoSuchSigner => "NoSuchSigner",
            Refusal::HasParent => "HasParent",
            Refusal::NoParent => "NoParent",
            Refusal::ChildThere => "ChildThere",
            Refusal::NoSuchChild => "NoSuchChild",
            Refusal::TooManyChildren => "TooManyChildren",
            Refusal::Suspended => "Suspended",
            Refusal::NotSuspended => "NotSuspended",
            Refusal::OriginThere { .. } => "OriginThere",
            Refusal::OriginTwice { .. } => "OriginTwice",
            Refusal::NoSuchOrigin { .. } => "NoSuchOrigin",
            Refusal::TooManyOrigins { .. } => "TooManyOrigins",
            Refusal::RollGoing => "RollGoing",
            Refusal::NoRoll => "NoRoll",
            Refusal::AnchorOnly => "AnchorOnly",
            Refusal::NotForAnchor => "NotForAnchor",
        }
    }
}
