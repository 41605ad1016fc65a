// Modes (paper 02, request 14): what is kept of a plan that a place holds, by value, and what 43 and 44 ask of it.
#![tactic(auto)]

ghost use Rattle.std.specs.Prelude.{◌≡◌};
ghost use Rattle.modes.specs.Modes.{is_plan, alike, lane_count};

// H, the numbers of cores and links, and the words from `first` to before `end`, in which the tables of its lanes lie.
#[derive(Clone, Copy)]
pub struct HeldPlan {
    pub ticks: u32,
    pub cores: u32,
    pub links: u32,
    pub first: u32,
    pub end: u32,
}

// Is it a plan? One that is held has a core.
pub fn is_plan(plan: HeldPlan) -> bool
    ensures { result ≡ is_plan plan }
{
    0 < plan.cores
}

// 44: have two plans the same H, core count and link count?
pub fn alike(plan: HeldPlan, other: HeldPlan) -> bool
    ensures { result ≡ alike plan other }
{
    let ticks = plan.ticks == other.ticks;
    let cores = plan.cores == other.cores;
    let links = plan.links == other.links;
    ticks & cores & links
}

// How many lanes a plan has.
pub fn lane_count(plan: HeldPlan) -> usize
    ensures { result ≡ lane_count plan }
{
    plan.cores as usize + plan.links as usize
}
