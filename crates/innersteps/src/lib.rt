// The steps of surgery, exported for the comparison alone: it runs them beside the Rust on nets that need not be sound, as an operation
// meets them in its middle. Only the shape and the caller's numbers are tested first.
#![tactic(auto)]

ghost use Rattle.std.specs.Prelude.{◌≡◌, true, List, ℕ, ◌*◌, ◌<◌, ◌≤◌, ℤ, length, drop};
ghost use Rattle.numbers.specs.Numbers.{halfedge_number};
ghost use Rattle.rows.specs.Triples.{lent_triples};
ghost use Rattle.net.specs.Counts.{vertex_capacity_over};
ghost use Rattle.net.specs.Net.{net};
ghost use Rattle.steps.specs.Steps.{begin, run_after, InUse};
ghost use Rattle.collapsing.specs.Collapse.{tried, collapse_at};
ghost use Rattle.collapse.specs.CollapseEdge.{tolerance};
ghost use Rattle.innersteps.specs.Told.{counts_of, run_told, refused_by, collapse_step, update_step, fold_step, loop_step, trial_left, try_step};

use judging::Tolerance;
use numbers::Halfedge;
use refused::Refusal;
use steps::Stop;

#[repr(C)]
#[derive(Clone, Copy)]
pub struct Used {
    pub halfedges: usize,
    pub vertices: usize,
    pub normals: usize,
    pub references: usize,
    pub properties: usize,
    pub num_prop: usize,
}

// How the step ended, by document 01's number, 0 where the steps go on; and the vertices in use then.
#[repr(C)]
#[derive(Clone, Copy)]
pub struct StepAnswer {
    pub number: u32,
    pub vertices: usize,
}

fn counts_of(used: Used) -> net::Counts
    ensures { result ≡ counts_of used }
{
    net::Counts {
        halfedges: used.halfedges,
        vertices: used.vertices,
        normals: used.normals,
        references: used.references,
        properties: used.properties,
        num_prop: used.num_prop,
    }
}

fn told(vertices: usize, went: Result<(), Stop>) -> StepAnswer
    ensures { result ≡ run_told (run_after vertices went) }
{
    let number = match went {
        Ok(()) => 0,
        Err(Stop::NoRoom) => 6,
        Err(Stop::Stopped) => 7,
    };
    StepAnswer { number, vertices }
}

fn refused(number: u32) -> StepAnswer
    ensures { result ≡ refused_by number }
{
    StepAnswer {
        number,
        vertices: 0,
    }
}

#[unsafe(no_mangle)]
pub extern "C" fn innersteps_collapse(
    used: Used,
    halfedges: &mut [i32],
    positions: &[u64],
    normals: &[u64],
    references: &[i32],
    properties: &[u64],
    halfedge: i32,
) -> StepAnswer
    ensures { (result, halfedges.new) ≡ collapse_step (counts_of used) (net halfedges.old positions.now normals.now references.now properties.now) halfedge }
{
    if !net::shaped(
        counts_of(used),
        halfedges,
        positions,
        normals,
        references,
        properties,
    ) {
        return refused(1);
    }
    let Some(e) = numbers::halfedge_read(halfedge, used.halfedges) else {
        return refused(4);
    };
    let went = triangles::collapse_step(halfedges, used.halfedges, e);
    told(used.vertices, went)
}

#[unsafe(no_mangle)]
pub extern "C" fn innersteps_update(
    used: Used,
    halfedges: &mut [i32],
    positions: &[u64],
    normals: &[u64],
    references: &[i32],
    properties: &[u64],
    vertex: i32,
    start: i32,
    end: i32,
) -> StepAnswer
    ensures { (result, halfedges.new) ≡ update_step (counts_of used) (net halfedges.old positions.now normals.now references.now properties.now) vertex start end }
{
    if !net::shaped(
        counts_of(used),
        halfedges,
        positions,
        normals,
        references,
        properties,
    ) {
        return refused(1);
    }
    let Some(v) = numbers::vertex_read(vertex, used.vertices) else {
        return refused(4);
    };
    let Some(a) = numbers::halfedge_read(start, used.halfedges) else {
        return refused(4);
    };
    let Some(b) = numbers::halfedge_read(end, used.halfedges) else {
        return refused(4);
    };
    let went = walks::update_step(halfedges, used.halfedges, v, a, b);
    told(used.vertices, went)
}

#[unsafe(no_mangle)]
pub extern "C" fn innersteps_fold(
    used: Used,
    halfedges: &mut [i32],
    positions: &mut [u64],
    normals: &[u64],
    references: &[i32],
    properties: &[u64],
    halfedge: i32,
) -> StepAnswer
    ensures { (result, (halfedges.new, positions.new)) ≡ fold_step (counts_of used) (net halfedges.old positions.old normals.now references.now properties.now) halfedge }
{
    if !net::shaped(
        counts_of(used),
        halfedges,
        positions,
        normals,
        references,
        properties,
    ) {
        return refused(1);
    }
    let Some(e) = numbers::halfedge_read(halfedge, used.halfedges) else {
        return refused(4);
    };
    let went = folds::fold_step(halfedges, positions, used.halfedges, used.vertices, e);
    told(used.vertices, went)
}

#[unsafe(no_mangle)]
pub extern "C" fn innersteps_loop(
    used: Used,
    halfedges: &mut [i32],
    positions: &mut [u64],
    normals: &[u64],
    references: &[i32],
    properties: &[u64],
    first: i32,
    second: i32,
) -> StepAnswer
    ensures { (result, (halfedges.new, positions.new)) ≡ loop_step (counts_of used) (net halfedges.old positions.old normals.now references.now properties.now) first second }
{
    if !net::shaped(
        counts_of(used),
        halfedges,
        positions,
        normals,
        references,
        properties,
    ) {
        return refused(1);
    }
    let Some(a) = numbers::halfedge_read(first, used.halfedges) else {
        return refused(4);
    };
    let Some(b) = numbers::halfedge_read(second, used.halfedges) else {
        return refused(4);
    };
    let capacity = net::vertex_capacity(positions);
    let mut vertices = used.vertices;
    let went = loops::loop_step(
        halfedges,
        positions,
        &mut vertices,
        used.halfedges,
        capacity,
        a,
        b,
    );
    told(vertices, went)
}

// How a try came out: by how the steps ended, or 5, 9 or 8 where the edge was left alone.
fn tried_told(vertices: usize, attempt: Result<(), Refusal>) -> StepAnswer
    ensures { (h : List ℤ) (p : List ℕ) → (result, (h, p)) ≡ trial_left (tried attempt h p vertices) }
{
    let number = match attempt {
        Ok(()) => 0,
        Err(Refusal::Dead) => 5,
        Err(Refusal::NoRoom) => 6,
        Err(Refusal::Stopped) => 7,
        Err(Refusal::OpenFan) => 9,
        Err(_) => 8,
    };
    StepAnswer { number, vertices }
}

// Tries to collapse the edge e.
fn try_at(
    rows: &mut [i32],
    positions: &mut [u64],
    references: &[i32],
    list: &mut [u32],
    halfedges: usize,
    vertices: usize,
    props: bool,
    tolerance: Tolerance,
    e: Halfedge,
) -> StepAnswer
    requires { ((halfedge_number e < halfedges) × InUse halfedges rows.old) × ((vertices ≤ vertex_capacity_over positions.old) × ((props ≡ true → halfedges ≤ 3 * lent_triples references.now) × (halfedges ≤ length list.old))) }
    ensures { ((result, (rows.new, positions.new)) ≡ trial_left (collapse_at halfedges (vertex_capacity_over positions.old) props references.now tolerance (halfedge_number e) (begin rows.old positions.old vertices))) × (drop halfedges list.new ≡ drop halfedges list.old) }
{
    let capacity = net::vertex_capacity(positions);
    let mut used = vertices;
    let attempt = collapsing::collapse_step(
        rows, positions, &mut used, references, list, halfedges, capacity, props, e, tolerance,
    );
    tried_told(used, attempt)
}

// The work of collapse_edge past its checks. The list holds the half-edges in use, and keeps what is behind them.
#[unsafe(no_mangle)]
pub extern "C" fn innersteps_try(
    used: Used,
    halfedges: &mut [i32],
    positions: &mut [u64],
    normals: &[u64],
    references: &[i32],
    properties: &[u64],
    list: &mut [u32],
    halfedge: i32,
    first_new_vert: i32,
    tol: f64,
    epsilon: f64,
) -> StepAnswer
    ensures { ((result, (halfedges.new, positions.new)) ≡ try_step (counts_of used) (net halfedges.old positions.old normals.now references.now properties.now) (length list.old) halfedge (tolerance first_new_vert tol epsilon)) × (drop used.halfedges list.new ≡ drop used.halfedges list.old) }
{
    if !net::shaped(
        counts_of(used),
        halfedges,
        positions,
        normals,
        references,
        properties,
    ) {
        return refused(1);
    }
    if !net::long_enough(list.len(), used.halfedges) {
        return refused(2);
    }
    let Some(e) = numbers::halfedge_read(halfedge, used.halfedges) else {
        return refused(4);
    };
    let props = (0 < used.num_prop) & (0 < used.references);
    let tolerance = Tolerance {
        first_new_vert,
        tol,
        epsilon,
    };
    try_at(
        halfedges,
        positions,
        references,
        list,
        used.halfedges,
        used.vertices,
        props,
        tolerance,
        e,
    )
}
