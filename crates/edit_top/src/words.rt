//! The words that the program was called with.

ghost use Rattle.std.specs.Prelude.{◌≡◌, true, [], length, get_or, map, string_bytes, option_map, IfSome};
ghost use Rattle.run_terms.specs.Limits.{is_one_of};
ghost use Rattle.edit_top.specs.Words.{asked_by, asked_view, IsAskedWithin, asked_with, names_view, seed_of, workers_of, depth_of};
ghost use Rattle.edit_top.specs.Status.{file_name};

use term_text::natural_between;

/// What the words of a run ask for.
#[derive(Clone, Copy, Debug)]
pub(crate) struct RunWords<'a> {
    pub(crate) names: Names<'a>,
    pub(crate) settings: Settings,
}

/// The files that a run names: the world to load, the file to save, and the scripts.
#[derive(Clone, Copy, Debug)]
pub(crate) struct Names<'a> {
    pub(crate) world: &'a str,
    pub(crate) out: &'a str,
    pub(crate) scripts: &'a [String],
}

/// The seed of random choices, how many workers run jobs, and how many edits a history keeps.
#[derive(Clone, Copy, Debug)]
pub(crate) struct Settings {
    pub(crate) seed: u64,
    pub(crate) workers: u32,
    pub(crate) depth: u32,
}

impl Names<'_> {
    /// The name of a file by its number: the world is 0, and the scripts count from 1.
    #[tactic(auto, using(crate::proofs::Scripts::file_name_script))]
    pub(crate) fn file(&self, number: u32) -> &[u8]
        ensures { result.now ≡ file_name (names_view self.now) number }
    {
        if number == 0 {
            self.world.as_bytes()
        } else {
            self.script(number - 1)
        }
    }

    /// The name of a script by its place, from 0.
    #[tactic(auto, using(crate::proofs::Scripts::name_there))]
    fn script(&self, place: u32) -> &[u8]
        ensures { result.now ≡ get_or (names_view self.now).scripts place [] }
    {
        match self.scripts.get(place as usize) {
            None => b"",
            Some(name) => name.as_bytes(),
        }
    }
}

/// What the words `run WORLD OUT SEED WORKERS DEPTH SCRIPT` with 1 to 64 words SCRIPT ask for. None exactly for
/// other words.
pub(crate) fn asked_by(words: &[String]) -> Option<RunWords<'_>>
    ensures words { option_map asked_view result ≡ asked_by (map string_bytes words.now) }
    ensures within { IfSome result (λ asked. IsAskedWithin (asked_view asked)) }
{
    let [call, world, out, seed, workers, depth, scripts @ ..] = words else {
        return None;
    };
    if call.as_str() != "run" {
        return None;
    }
    if scripts.is_empty() || scripts.len() > 64 {
        return None;
    }
    let names = Names {
        world: world.as_str(),
        out: out.as_str(),
        scripts,
    };
    asked_with(names, seed.as_str(), workers.as_str(), depth.as_str())
}

/// These files, and the numbers of the three words.
fn asked_with<'a>(names: Names<'a>, seed: &str, workers: &str, depth: &str) -> Option<RunWords<'a>>
    requires { is_one_of 1 64 (length names.scripts.now) ≡ true }
    ensures words { option_map asked_view result ≡ asked_with (names_view names.entry) (seed_of seed.now) (workers_of workers.now) (depth_of depth.now) }
    ensures within { IfSome result (λ asked. IsAskedWithin (asked_view asked)) }
{
    let seed = natural_between(seed.as_bytes(), 20, 0, u64::MAX)?;
    let workers = natural_between(workers.as_bytes(), 2, 1, 64)?;
    let depth = natural_between(depth.as_bytes(), 4, 1, 1_000)?;
    Some(RunWords {
        names,
        settings: Settings {
            seed,
            workers: workers as u32,
            depth: depth as u32,
        },
    })
}
