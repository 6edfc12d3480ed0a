// What origins are as values, and their order.
ghost use Rattle.std.specs.Prelude.{◌≡◌};
ghost use Rattle.std.specs.Cmp.{IsTotalOrder};
ghost use Rattle.std.specs.declared.cmp.Ordering.TheVariants.{Equal};
ghost use Rattle.origins.specs.declared.Prefix.{Prefix};
ghost use Rattle.origins.specs.declared.Origin.{Origin};
ghost use Rattle.origins.specs.Order.{origin_cmp};

/// A law, with nothing to run: a prefix and an origin are their numbers.
pub fn same_numbers_same_origin()
    ensures prefix { (p q : Prefix) → p.v6 ≡ q.v6 → p.address ≡ q.address → p.length ≡ q.length → p ≡ q }
    ensures origin { (o p : Origin) → o.prefix ≡ p.prefix → o.max ≡ p.max → o.asn ≡ p.asn → o ≡ p }
{}

/// A law, with nothing to run: `cmp` orders origins by family, IPv4 first, then by address, length,
/// maximum length and AS number. It is total, and only one origin compares as equal to another.
pub fn orders_origins()
    ensures cmp { (o p : Origin) → ⟦<crate::Origin as Ord>⟧.cmp o p ≡ origin_cmp o p }
    ensures total { IsTotalOrder origin_cmp }
    ensures exact { (o p : Origin) → origin_cmp o p ≡ Equal → o ≡ p }
{}
