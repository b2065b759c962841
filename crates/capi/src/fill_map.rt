// The root map for C.
ghost use Rattle.std.specs.Prelude.{◌≡◌, length};
ghost use Rattle.rootmap.specs.Map.{mapped_of, map_filled};
ghost use Rattle.capi.specs.Answers.{done_answer};

use crate::answers::DoneAnswer;

// `rootmap::fill_map`. Rules 4, 14, 5, 6, 7, 9 and 10; a refusal alters nothing.
#[unsafe(no_mangle)]
pub extern "C" fn wimpleclay_fill_map(
    p: u32,
    n: u32,
    residues: &[i32],
    levels: &[u8],
    map: &mut [u8],
) -> DoneAnswer
    ensures answer { result ≡ done_answer (mapped_of p n residues.now levels.now (length map.old)) }
    ensures map { map.new ≡ map_filled p n residues.now levels.now map.old }
{
    rootmap::fill_map(p, n, residues, levels, map).into()
}
