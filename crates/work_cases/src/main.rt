//! Cases of sessions, plans, the reference execution, the workload of the drill, and counts of states.
//!
//! A WORLD is a box, `WxHxL` or `WxHxL at X,Y,Z`, and its blocks in index order (x runs fastest, then z, then y) as
//! runs with blanks between: `stone` is one block, `stone*3` are three, and `stone*` all that are left. A block with an
//! entity has the entity's tags before and after its position behind it, `chest{id/items}`. Blocks are answered so
//! too. A SCRIPT is a player's commands with ` | ` between, and SCRIPTS are the scripts of players 0, 1 and so on with
//! ` || ` between. An ORDER is a list of player numbers. WORLD may stand behind `depth N`, the depth of histories
//! (else 15), and then behind `seed N` (else 0).
//!
//! | Kind and input | Answer |
//! |---|---|
//! | `session SCRIPT` | what each command is in its session |
//! | `new PLAYER` | what a new session of this player has |
//! | `selections SCRIPT`, `clips SCRIPT` | the selection and the clipboard behind each command of player 7 |
//! | `limits WORLD; SCRIPTS` | whether the workload keeps the limits |
//! | `plan WORLD; SCRIPTS` | the chunks that each command reads and writes, and how many jobs there are |
//! | `plan_many N WORLD; SCRIPT` | how many jobs there are where the script's last command stands N times |
//! | `plan_head WORLD; SCRIPTS` | how many jobs there are, the seed and the box |
//! | `edit WORLD; SCRIPT` | the replies, and the blocks that are left |
//! | `fold WORLD; ORDER; SCRIPTS` | the same in an order |
//! | `find WORLD; ORDER; SCRIPTS; POSITIONS` | the blocks that are left at these positions |
//! | `same WORLD; ORDER; ORDER; SCRIPTS` | whether two orders leave the same blocks |
//! | `inside REGION; POSITIONS` | whether each position is one of the region's |
//! | `census WORLD` | the states and how many blocks have each |
//! | `drill N`, `drill_group N PLAYER GROUP` | the workload of the drill, and three of its commands |
#![tactic(auto)]

mod blocks;
mod censuses;
mod commands;
mod drills;
mod edits;
mod folds;
mod looks;
mod numbers;
mod outcomes;
mod plans;
mod positions;
mod regions;
mod replies;
mod runs;
mod scripts;
mod selections;
mod sessions;
mod states;
mod steps;
mod transforms;
mod workloads;
mod worlds;

use case_lines::{Answer, Cases, run_cases};
use std::alloc::Global;
use std::io;

struct WorkCases;

impl Cases for WorkCases {
    fn answer(&self, alloc: Global, kind: &str, input: &str, answer: &mut Answer) -> Option<()> {
        match kind {
            "session" => sessions::answer_steps(alloc, input, answer),
            "new" => sessions::answer_new(alloc, input, answer),
            "selections" => sessions::answer_selections(alloc, input, answer),
            "clips" => sessions::answer_clips(alloc, input, answer),
            "plan" => plans::answer_plan(alloc, input, answer),
            "plan_many" => plans::answer_many(alloc, input, answer),
            "plan_head" => plans::answer_head(alloc, input, answer),
            _ => answer_run(alloc, kind, input, answer),
        }
    }
}

/// The answers of runs, and of what needs no script.
fn answer_run(alloc: Global, kind: &str, input: &str, answer: &mut Answer) -> Option<()> {
    match kind {
        "limits" => workloads::answer_limits(alloc, input, answer),
        "edit" => edits::answer(alloc, input, answer),
        "fold" => folds::answer(alloc, input, answer),
        "find" => looks::answer_found(alloc, input, answer),
        "same" => looks::answer_same(alloc, input, answer),
        "inside" => regions::answer(input, answer),
        "census" => censuses::answer(alloc, input, answer),
        "drill" => drills::answer_workload(alloc, input, answer),
        "drill_group" => drills::answer_group(alloc, input, answer),
        _ => None,
    }
}

fn main(rt: HostRuntime) -> io::Result<()> {
    run_cases(&rt, &WorkCases)
}
