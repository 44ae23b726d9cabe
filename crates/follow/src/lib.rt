// The table of phases that may follow each phase: one constant, a mask for each phase, as `follow_mask` of rules has it.
#![tactic(auto)]

ghost use Rattle.std.specs.Prelude.{◌≡◌, ◌<◌};
ghost use Rattle.rules.specs.Follow.{follow_mask, follows};

const FOLLOW: [u32; 26] = [
    0, 12, 12, 48, 48, 33555010, 33554560, 256, 33554432, 3072, 3072, 33558528, 33562624, 24576,
    32768, 589824, 196608, 393216, 557056, 1048576, 2097152, 12582912, 12582912, 16777216,
    33554432, 1,
];

// The phases that may follow phase `p`: digit q is 1 where q may. No phase above 25 has a follower.
pub fn follow_mask(p: u8) -> u32
    ensures { result ≡ follow_mask p }
{
    FOLLOW.get(usize::from(p)).copied().unwrap_or(0)
}

// Phase `q` may follow phase `p`.
pub fn may_follow(p: u8, q: u8) -> bool
    ensures { result ≡ follows p q }
{
    keys::has(follow_mask(p) as u64, q)
}
