ghost use Rattle.std.specs.Prelude.{◌≡◌, IsTrue, OnOk};
ghost use Rattle.std.specs.Arc.{arc_value};
ghost use Rattle.std.specs.Option.{option_copied, option_map};
ghost use Rattle.router_tables.specs.Views.{no_tables, view_table};

use bmp_specs::View;
use route_runs::RouteTable;
use std::alloc::AllocError;
use std::marker::Model;
use std::sync::Arc;

// The tables of one peer: one for each RIB in which its routes are seen (RFC 7854, section 4.2; RFC 8671,
// section 4; RFC 9069, section 4.1), none where it has no row.
#[derive(Drop)]
pub(crate) struct Views {
    pub(crate) in_pre: Option<Arc<RouteTable>>,
    pub(crate) in_post: Option<Arc<RouteTable>>,
    pub(crate) out_pre: Option<Arc<RouteTable>>,
    pub(crate) out_post: Option<Arc<RouteTable>>,
    pub(crate) loc: Option<Arc<RouteTable>>,
}

impl Model for Views {
    ghost use Rattle.std.specs.Arc.{arc_value};
    ghost use Rattle.std.specs.Option.{option_map};
    ghost use Rattle.router_tables.specs.Views.{ViewsValue};

    ghost Value = { ViewsValue };

    ghost view = { λ v. record {
      in_pre = option_map arc_value v.in_pre;
      in_post = option_map arc_value v.in_post;
      out_pre = option_map arc_value v.out_pre;
      out_post = option_map arc_value v.out_post;
      loc = option_map arc_value v.loc;
    } };
}

impl Views {
    // No table.
    pub(crate) fn none() -> Views
        ensures { result ≡ no_tables }
    {
        Views {
            in_pre: None,
            in_post: None,
            out_pre: None,
            out_post: None,
            loc: None,
        }
    }

    // Whether there is none.
    pub(crate) fn is_none(&self) -> bool
        ensures { IsTrue result → self.now ≡ no_tables }
    {
        self.in_pre.is_none()
            && self.in_post.is_none()
            && self.out_pre.is_none()
            && self.out_post.is_none()
            && self.loc.is_none()
    }

    // Shares these.
    fn share(&mut self, from: &Views) -> Result<(), AllocError>
        ensures { OnOk result (self.new ≡ from.now) }
    {
        share(&mut self.in_pre, &from.in_pre)?;
        share(&mut self.in_post, &from.in_post)?;
        share(&mut self.out_pre, &from.out_pre)?;
        share(&mut self.out_post, &from.out_post)?;
        share(&mut self.loc, &from.loc)
    }

    // The table of a view.
    pub(crate) fn of_view(&self, view: View) -> Option<&RouteTable>
        ensures { option_copied result ≡ view_table view self.now }
    {
        match view {
            View::InPre => lent(&self.in_pre),
            View::InPost => lent(&self.in_post),
            View::OutPre => lent(&self.out_pre),
            View::OutPost => lent(&self.out_post),
            View::Loc => lent(&self.loc),
        }
    }
}

// Lends what is shared.
fn lent(table: &Option<Arc<RouteTable>>) -> Option<&RouteTable>
    ensures { option_copied result ≡ option_map arc_value table.now }
{
    match table {
        Some(table) => Some(&**table),
        None => None,
    }
}

// Shares what is there.
fn share(to: &mut Option<Arc<RouteTable>>, from: &Option<Arc<RouteTable>>) -> Result<(), AllocError>
    ensures { OnOk result (option_map arc_value to.new ≡ option_map arc_value from.now) }
{
    *to = match from {
        Some(table) => Some(Arc::try_clone(table)?),
        None => None,
    };
    Ok(())
}

impl Clone for Views {
    ghost is_clone = { λ x y. y ≡ x };

    fn clone(&self) -> Result<Views, AllocError> {
        let mut copy = Views::none();
        copy.share(self)?;
        Ok(copy)
    }
}
