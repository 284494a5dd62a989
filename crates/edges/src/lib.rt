//! Theorems over the definitions that the contracts of `layout`, `control` and `watch` cite. The answers say nothing;
//! the contracts do.

#![tactic(auto)]

ghost use Rattle.edges.specs.Edges.{Edges};
ghost use Rattle.edges.specs.ReadsBack.{ReadsBack};

/// Each edge of the rules stands.
pub fn edges_stand() -> u8
    ensures { Edges }
{
    0
}

/// Control blocks read back as what they were formed of.
pub fn blocks_read_back() -> u8
    ensures { ReadsBack }
{
    0
}
