// The role map for C under its own name, `role_map`, in an archive of its own. The C library, host_c, has
// it under the prefix that all operations share.
// The clause stands here and in frame: no crate can depend on a static library, so other crates call frame.
#![tactic(auto)]

ghost use Rattle.params.specs.Params.{mode_from};
ghost use Rattle.frame.specs.Operations.{RoleMap};

// Role map: the role byte of each carrier of the band.
//
// Refused by 1 for a bad mode, 2 unless there are thirteen kinds of 0 or 1, 3 for a bad phase, 7
// unless the output has k_total bytes.
#[unsafe(no_mangle)]
pub extern "C" fn role_map(mode: u8, phase: u8, kinds: &[u8], out: &mut [u8]) -> u8
    ensures { RoleMap (mode_from mode) phase kinds.now out.old result out.new }
{
    params::number_of(frame::role_map(mode, phase, kinds, out))
}
