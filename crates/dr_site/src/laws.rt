//! Laws of sites.
ghost use Rattle.dr_site.specs.Contexts.{PairsAreAsPlanned, AcceptsAsPlanned};
ghost use Rattle.dr_site.specs.Forms.{SitesAreFormed};
ghost use Rattle.dr_site.specs.Routing.{LinesAreAsPlanned, SendsAsPlanned, KeepsAsPlanned};
ghost use Rattle.dr_site.specs.Sites.{StrangersAreTold};

/// A site's lines, flows and rules say of each key and caller what the plan says of its node:
/// whether the key comes there, where it is sent, and whether it is kept.
pub fn sites_route_as_planned()
    ensures lines { LinesAreAsPlanned }
    ensures sends { SendsAsPlanned }
    ensures keeps { KeepsAsPlanned }
{}

/// The pairs of a site's hops to a node are exactly those that go over that hop of its plan, and
/// its accept rows take exactly what its plan's node accepts.
pub fn sites_have_the_plans_contexts()
    ensures pairs { PairsAreAsPlanned }
    ensures accepts { AcceptsAsPlanned }
{}

/// A site's names and classes have the forms that a plan asks for. Over each hop of its node go at
/// most 128 contexts, whose ids are odd, different and at most 255 (PS3.8 7.1.1.13).
pub fn sites_are_formed()
    ensures { SitesAreFormed }
{}

/// Who is no node of a plan has no site, and is told so whatever memory there is.
pub fn strangers_are_told()
    ensures { StrangersAreTold }
{}
