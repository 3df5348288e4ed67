// How a collapse carries prop_vert about the start of its edge. Nothing here asks for rows in order.
#![tactic(auto)]

ghost use Rattle.std.specs.Prelude.{◌≡◌, true, ◌*◌, ◌<◌, ◌≤◌};
ghost use Rattle.numbers.specs.Numbers.{halfedge_number};
ghost use Rattle.rows.specs.Triples.{lent_triples};
ghost use Rattle.steps.specs.Steps.{InUse};
ghost use Rattle.carrying.specs.Carried.{carried};

use numbers::Halfedge;

// The prop of h follows the face of the edge e, else that of its partner p; only where props are carried at all.
pub fn carry_prop(
    rows: &mut [i32],
    references: &[i32],
    halfedges: usize,
    props: bool,
    e: Halfedge,
    p: Halfedge,
    h: Halfedge,
)
    requires { ((halfedge_number e < halfedges) × ((halfedge_number p < halfedges) × (halfedge_number h < halfedges))) × (InUse halfedges rows.old × (props ≡ true → halfedges ≤ 3 * lent_triples references.now)) }
    ensures { rows.new ≡ carried props references.now (halfedge_number e) (halfedge_number p) (halfedge_number h) rows.old }
{
    if !props {
        return;
    }
    let t = h.number() / 3;
    if rows::triples::same_reference(references, t, e.number() / 3) {
        let n = e.next();
        rows::halfedges::copy_prop(rows, n, h);
        return;
    }
    if rows::triples::same_reference(references, t, p.number() / 3) {
        rows::halfedges::copy_prop(rows, p, h);
    }
}
