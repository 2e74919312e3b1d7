// Laws of edges and scripts.
ghost use Rattle.std.specs.Prelude.{◌≡◌, ℕ, ◌<◌, ◌≤◌, ◌^◌, length};
ghost use Rattle.cpl_core.specs.declared.wiring.Act.TheVariants.{Post, Take};
ghost use Rattle.cpl_core.specs.Wires.{IsWired};
ghost use Rattle.cpl_wires.specs.Settings.{Setting, IsSetting, piece_count};
ghost use Rattle.cpl_wires.specs.Edges.{edges_of, edge_at};
ghost use Rattle.cpl_wires.specs.Stops.{stops, stop_at};
ghost use Rattle.cpl_wires.specs.Wirings.{Value, HasLengths, wires_of};
ghost use Rattle.cpl_wires.specs.Laws.{IsEdge, IsUsed, IsOwn, PostIsUse, TakeIsUse, IsSpelledOut};
ghost use Rattle.cpl_namelist.specs.Ranges.{AreNames};
ghost use Rattle.cpl_namelist.specs.declared.names.Names.{Names};
ghost use Rattle.cpl_wires.specs.Schedule.{GoesBySchedule};
ghost use Rattle.cpl_wires.specs.TimeLaws.{IsTurn, RisesBy, IsInTime};

/// Each edge leads from a piece that may post to one that may take, which share something. The script of the one posts it once for each
/// use, that of the other takes it once for each use, and no other script names it. Defined by this project.
pub fn edge_law()
    ensures pieces { (setting : Setting) (edge : ℕ) → edge < length (edges_of setting) → IsEdge setting (edge_at setting edge) }
    ensures used { (setting : Setting) (edge : ℕ) → edge < length (edges_of setting) → IsUsed setting edge }
{}

/// There are 4 to 256 pieces and 1 to 37,120 edges, and a script has at most 2^62 actions. Defined by this project.
pub fn few_law()
    ensures pieces { (setting : Setting) → IsSetting setting → (4 ≤ piece_count setting) × (piece_count setting ≤ 256) }
    ensures edges { (setting : Setting) → IsSetting setting → (1 ≤ length (edges_of setting)) × (length (edges_of setting) ≤ 37_120) }
    ensures actions { (setting : Setting) (piece : ℕ) → IsSetting setting → length (stops setting piece) ≤ 2 ^ 62 }
{}

/// Each action of a script is a Post of an edge that the piece posts, a Take of one that it takes, or a Compute, as its turn says. A Post
/// comes after as many Posts of its edge as the number of its use, and so does a Take. Defined by this project.
pub fn stop_law()
    ensures own { (setting : Setting) (piece m : ℕ) → m < length (stops setting piece) → IsOwn setting piece (stop_at setting piece m) }
    ensures posts { (setting : Setting) (piece m edge : ℕ) → m < length (stops setting piece)
        → (stop_at setting piece m).act ≡ Post edge → PostIsUse setting piece m edge }
    ensures takes { (setting : Setting) (piece m edge : ℕ) → m < length (stops setting piece)
        → (stop_at setting piece m).act ≡ Take edge → TakeIsUse setting piece m edge }
{}

/// Edges and scripts are a wiring, whatever the uses carry, where each carries as many numbers as its edge's length says. The wiring's
/// numbers are those of the edges. Defined by this project.
pub fn wired_law()
    ensures wired { (setting : Setting) (value : Value) → IsSetting setting → HasLengths setting value → IsWired (wires_of setting value) }
    ensures spelled { (setting : Setting) (value : Value) → IsSpelledOut setting value }
{}

/// Each turn of a script is in a coupling step of the run, and in one of its fast steps or ocean steps. Times rise along each script. A
/// use of an edge is posted at a lower time than it is taken, and taken at a lower time than the next use is posted. Defined by this
/// project.
pub fn time_law()
    ensures turns { (setting : Setting) (piece m : ℕ) → m < length (stops setting piece) → IsTurn setting.names (stop_at setting piece m).turn }
    ensures rising { (setting : Setting) (piece : ℕ) → AreNames setting.names → RisesBy setting piece }
    ensures uses { (setting : Setting) (edge : ℕ) → AreNames setting.names → IsInTime setting edge }
{}

/// The moves of each piece are those that the schedule has for its component, moment by moment; each has the time of its moment, and
/// times rise from moment to moment. Defined by this project.
pub fn schedule_law()
    ensures { (names : Names) → GoesBySchedule names }
{}
