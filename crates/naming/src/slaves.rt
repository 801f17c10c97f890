// Refusal 8 (RULES 3.2): the chart, state and node of each slave exist, and slaves are in order.
ghost use Rattle.std.specs.Prelude.{◌≡◌, ◌<◌};
ghost use Rattle.meaning.specs.File.{file_at};
ghost use Rattle.meaning.specs.Check.{slave?, slaves?, rising};
ghost use Rattle.checks.specs.Known.{Sized};

use layout::body::Shape;

// Slave h comes before slave i: it has a lower chart, or the same chart and a lower state.
fn rising(n: Shape, body: &[u8], h: usize, i: usize) -> bool
    requires { Sized n body.now × ((h < n.slaves) × (i < n.slaves)) }
    ensures { result ≡ rising (file_at n body.now) h i }
{
    let p = layout::body::slave_at(n, body, h);
    let q = layout::body::slave_at(n, body, i);
    (p.chart < q.chart) | ((p.chart == q.chart) & (p.state < q.state))
}

fn bad_slave(n: Shape, body: &[u8], i: usize) -> bool
    requires { Sized n body.now × (i < n.slaves) }
    ensures { result ≡ slave? (file_at n body.now) i }
{
    let s = layout::body::slave_at(n, body, i);
    let c = s.chart as usize;
    if c >= n.charts {
        return true;
    }
    let master = layout::body::head_at(n, body, c);
    if s.state >= master.states {
        return true;
    }
    if s.node as usize >= n.nodes {
        return true;
    }
    if i == 0 {
        return false;
    }
    !rising(n, body, i - 1, i)
}

pub fn bad_slaves(n: Shape, body: &[u8]) -> bool
    requires { Sized n body.now }
    ensures { result ≡ slaves? (file_at n body.now) }
{
    for i in 0..n.slaves {
        if bad_slave(n, body, i) {
            return true;
        }
    }
    false
}
