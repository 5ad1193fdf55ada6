// Whether a part holds the degrees of its vertices.
ghost use Rattle.std.specs.Prelude.{◌≡◌, map};
ghost use Rattle.worker_stream.specs.Degrees.{are_known};

use symple_face::Degree;
use vert_base::VertexId;

/// Whether the degrees are those of these vertices.
pub(crate) fn are_known(degrees: &[Degree], vertices: &[VertexId]) -> bool
    ensures { result ≡ are_known degrees.now (map (λ v. v.0) vertices.now) }
{
    let mut rest = vertices;
    for degree in degrees {
        match rest {
            [] => return false,
            [vertex, behind @ ..] => {
                if vertex.0 != degree.id.0 {
                    return false;
                }
                rest = behind;
            }
        }
    }
    rest.is_empty()
}
