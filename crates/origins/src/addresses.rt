// The addresses of a prefix.
use crate::Prefix;
use crate::grammar::address_bits;

impl Prefix {
    ghost use Rattle.std.specs.Prelude.{◌≡◌, ◌≤◌, ℕ};
    ghost use Rattle.origins.specs.Prefix.{IsAddressOf};

    /// The least address of the prefix.
    pub fn first(&self) -> u128
        ensures value { result ≡ self.now.address }
        ensures member { IsAddressOf self.now.v6 self.now.address self.now.length result }
        ensures least { (a : ℕ) → IsAddressOf self.now.v6 self.now.address self.now.length a → result ≤ a }
    {
        self.address
    }

    /// The greatest address of the prefix. Every address from the least to it is one of the prefix.
    pub fn last(&self) -> u128
        ensures member { IsAddressOf self.now.v6 self.now.address self.now.length result }
        ensures greatest { (a : ℕ) → IsAddressOf self.now.v6 self.now.address self.now.length a → a ≤ result }
        ensures behind { self.now.address ≤ result }
        ensures between { (a : ℕ) → self.now.address ≤ a → a ≤ result
            → IsAddressOf self.now.v6 self.now.address self.now.length a }
    {
        let host = address_bits(self.v6) - self.length;
        match 1u128.checked_shl(u32::from(host)) {
            Some(size) => self.address + (size - 1),
            None => u128::MAX,
        }
    }
}
