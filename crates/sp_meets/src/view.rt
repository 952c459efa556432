//! Accesses as parts of the bodies of the controllers around them.
ghost use Rattle.std.specs.Prelude.{◌≡◌, ◌++◌, ◌∷◌, [], map, flat_map, length, drop, slice_index_or, option_map, Some, None, IfOk, OnOk};
ghost use Rattle.sp_deps.specs.Access.{plain_access};
ghost use Rattle.sp_core.specs.Declarations.{is_among};
ghost use Rattle.sp_patterns.specs.Indices.{rows_of};
ghost use Rattle.sp_meets.specs.Plain.{plain_level, plain_path, plain_target, plain_spot, plain_spots, plain_parts, plain_view, plain_site, plain_touch};
ghost use Rattle.sp_meets.specs.Sites.{counters_of, is_changed, has_changed, known_inside, part_of, view_of, views_of, touch_of, site_of, sites_of};

use crate::indices::{copy_forms, indices_by, own_counters};
use crate::spot::{Level, Spot, Target};
use sp_affine::Form;
use sp_deps::{Access, Footprint, LoopRange};
use std::alloc::{AllocError, Global};

/// A memory that an access touches, with the counters of the access's own, after those around.
#[derive(Debug, Drop)]
pub struct Touch {
    pub access: Access,
    pub own: Vec<LoopRange>,
}

/// An access as a part of a controller's body: a part for each memory that it touches.
#[derive(Debug, Drop)]
pub struct View {
    pub part: u32,
    pub at_once: bool,
    pub streams: bool,
    pub copied: Vec<u32>,
    pub parts: Vec<Footprint>,
}

/// An access, as a part of each of the controllers around it, outermost first.
#[derive(Debug, Drop)]
pub struct Site {
    pub number: u32,
    pub views: Vec<View>,
}

pub fn is_among(n: u32, numbers: &[u32]) -> bool
    ensures { result ≡ is_among n numbers.now }
{
    let [m, rest @ ..] = numbers else {
        return false;
    };
    n == *m || is_among(n, rest)
}

fn is_changed(changed: &[u32], symbol: Option<u32>) -> bool
    ensures { result ≡ is_changed changed.now symbol }
{
    match symbol {
        Some(m) => is_among(m, changed),
        None => false,
    }
}

fn has_changed(changed: &[u32], forms: &[Form]) -> bool
    ensures { result ≡ has_changed changed.now forms.now }
{
    let [f, rest @ ..] = forms else {
        return false;
    };
    is_changed(changed, f.symbol) || has_changed(changed, rest)
}

fn known_inside(
    alloc: Global,
    changed: &[u32],
    forms: &Option<Vec<Form>>,
) -> Result<Option<Vec<Form>>, AllocError>
    ensures { IfOk result (λ r. option_map (λ v. v.items) r ≡ known_inside changed.now (option_map (λ v. v.items) forms.now)) }
{
    let Some(known) = forms else {
        return Ok(None);
    };
    if has_changed(changed, known) {
        return Ok(None);
    }
    Ok(Some(copy_forms(alloc, known)?))
}

fn access_inside(alloc: Global, changed: &[u32], access: &Access) -> Result<Access, AllocError>
    ensures { IfOk result (λ a. plain_access a ≡ record (plain_access access.now) { forms = known_inside changed.now (plain_access access.now).forms }) }
{
    Ok(Access {
        mem: access.mem,
        writes: access.writes,
        forms: known_inside(alloc, changed, &access.forms)?,
    })
}

fn add_counters(path: &[Level], counters: &mut Vec<LoopRange>) -> Result<(), AllocError>
    ensures { OnOk result (counters.new.items ≡ counters.old.items ++ counters_of (plain_path path.now)) }
{
    let [level, rest @ ..] = path else {
        return Ok(());
    };
    counters.extend_from_slice(&level.loops)?;
    add_counters(rest, counters)
}

/// The counters of these controllers.
fn counters_of(alloc: Global, path: &[Level]) -> Result<Vec<LoopRange>, AllocError>
    ensures { IfOk result (λ c. c.items ≡ counters_of (plain_path path.now)) }
{
    let mut counters = Vec::new(alloc);
    add_counters(path, &mut counters)?;
    Ok(counters)
}

fn part_of(
    alloc: Global,
    level: &Level,
    inside: &[LoopRange],
    touch: &Touch,
) -> Result<Footprint, AllocError>
    ensures { IfOk result (λ f. plain_parts f ≡ part_of (plain_level level.now) inside.now (plain_touch touch.now) ∷ []) }
{
    let mut accesses = Vec::new(alloc);
    accesses.push(access_inside(alloc, &level.changed, &touch.access)?)?;
    let mut loops = Vec::from_slice(alloc, &level.loops)?;
    loops.extend_from_slice(inside)?;
    loops.extend_from_slice(&touch.own)?;
    Ok(Footprint {
        accesses,
        common: u32::try_from(level.loops.len()).ok().ok_or(AllocError)?,
        loops,
    })
}

fn add_parts(
    alloc: Global,
    level: &Level,
    inside: &[LoopRange],
    touches: &[Touch],
    parts: &mut Vec<Footprint>,
) -> Result<(), AllocError>
    ensures { OnOk result (flat_map plain_parts parts.new.items ≡ flat_map plain_parts parts.old.items ++ map (part_of (plain_level level.now) inside.now) (map plain_touch touches.now)) }
{
    let [touch, rest @ ..] = touches else {
        return Ok(());
    };
    parts.push(part_of(alloc, level, inside, touch)?)?;
    add_parts(alloc, level, inside, rest, parts)
}

fn view_of(
    alloc: Global,
    level: &Level,
    inside: &[LoopRange],
    touches: &[Touch],
) -> Result<View, AllocError>
    ensures { IfOk result (λ v. plain_view v ≡ view_of (plain_level level.now) inside.now (map plain_touch touches.now)) }
{
    let mut parts = Vec::new(alloc);
    add_parts(alloc, level, inside, touches, &mut parts)?;
    Ok(View {
        part: level.part,
        at_once: level.at_once,
        streams: level.streams,
        copied: Vec::from_slice(alloc, &level.copied)?,
        parts,
    })
}

fn add_views(
    alloc: Global,
    path: &[Level],
    touches: &[Touch],
    views: &mut Vec<View>,
) -> Result<(), AllocError>
    ensures { OnOk result (map plain_view views.new.items ≡ map plain_view views.old.items ++ views_of (plain_path path.now) (map plain_touch touches.now)) }
{
    let [level, rest @ ..] = path else {
        return Ok(());
    };
    let inside = counters_of(alloc, rest)?;
    views.push(view_of(alloc, level, &inside, touches)?)?;
    add_views(alloc, rest, touches, views)
}

fn touch_of(
    alloc: Global,
    spans: &[bool],
    around: usize,
    rows: &[Option<Vec<Form>>],
    lengths: &[Option<u64>],
    target: &Target,
) -> Result<Touch, AllocError>
    ensures { IfOk result (λ t. plain_touch t ≡ touch_of spans.now around (slice_index_or (rows_of rows.now) 0 None) lengths.now (plain_target target.now)) }
{
    let count = target.sizes.len();
    Ok(Touch {
        access: Access {
            mem: target.mem,
            writes: target.writes,
            forms: indices_by(alloc, target.places, rows, spans, around, count)?,
        },
        own: own_counters(alloc, lengths, &target.sizes)?,
    })
}

fn add_touches(
    alloc: Global,
    spans: &[bool],
    around: usize,
    rows: &[Option<Vec<Form>>],
    lengths: &[Option<u64>],
    targets: &[Target],
    touches: &mut Vec<Touch>,
) -> Result<(), AllocError>
    ensures { OnOk result (map plain_touch touches.new.items ≡ map plain_touch touches.old.items ++ map (touch_of spans.now around (slice_index_or (rows_of rows.now) 0 None) lengths.now) (map plain_target targets.now)) }
{
    let [target, rest @ ..] = targets else {
        return Ok(());
    };
    touches.push(touch_of(alloc, spans, around, rows, lengths, target)?)?;
    add_touches(alloc, spans, around, rows, lengths, rest, touches)
}

fn touches_of(
    alloc: Global,
    spot: &Spot,
    rows: &[Option<Vec<Form>>],
    lengths: &[Option<u64>],
) -> Result<Vec<Touch>, AllocError>
    ensures { IfOk result (λ t. map plain_touch t.items ≡ map (touch_of spot.now.spans.items (length (counters_of (plain_path spot.now.path.items))) (slice_index_or (rows_of rows.now) 0 None) lengths.now) (map plain_target spot.now.targets.items)) }
{
    let around = counters_of(alloc, &spot.path)?;
    let mut touches = Vec::new(alloc);
    add_touches(
        alloc,
        &spot.spans,
        around.len(),
        rows,
        lengths,
        &spot.targets,
        &mut touches,
    )?;
    Ok(touches)
}

fn site_of(
    alloc: Global,
    spot: &Spot,
    rows: &[Option<Vec<Form>>],
    lengths: &[Option<u64>],
) -> Result<Site, AllocError>
    ensures { IfOk result (λ s. plain_site s ≡ site_of (plain_spot spot.now) (slice_index_or (rows_of rows.now) 0 None) lengths.now) }
{
    let touches = touches_of(alloc, spot, rows, lengths)?;
    let mut views = Vec::new(alloc);
    add_views(alloc, &spot.path, &touches, &mut views)?;
    Ok(Site {
        number: spot.number,
        views,
    })
}

fn later_rows(rows: &[Option<Vec<Form>>]) -> &[Option<Vec<Form>>]
    ensures { result.now ≡ drop 1 rows.now }
{
    match rows.split_first() {
        Some((_, rest)) => rest,
        None => rows,
    }
}

fn later_lengths(lengths: &[Option<u64>], count: usize) -> &[Option<u64>]
    ensures { result.now ≡ drop count lengths.now }
{
    match lengths.get(count..) {
        Some(rest) => rest,
        None => &[],
    }
}

fn add_sites(
    alloc: Global,
    spots: &[Spot],
    rows: &[Option<Vec<Form>>],
    lengths: &[Option<u64>],
    sites: &mut Vec<Site>,
) -> Result<(), AllocError>
    ensures { OnOk result (map plain_site sites.new.items ≡ map plain_site sites.old.items ++ sites_of (plain_spots spots.now) (rows_of rows.now) lengths.now) }
{
    let [spot, rest @ ..] = spots else {
        return Ok(());
    };
    sites.push(site_of(alloc, spot, rows, lengths)?)?;
    add_sites(
        alloc,
        rest,
        later_rows(rows),
        later_lengths(lengths, spot.lengths),
        sites,
    )
}

/// Accesses, by their rows of forms and the lengths of their ranges.
pub fn sites_of(
    alloc: Global,
    spots: &[Spot],
    rows: &[Option<Vec<Form>>],
    lengths: &[Option<u64>],
) -> Result<Vec<Site>, AllocError>
    ensures { IfOk result (λ s. map plain_site s.items ≡ sites_of (plain_spots spots.now) (rows_of rows.now) lengths.now) }
{
    let mut sites = Vec::new(alloc);
    add_sites(alloc, spots, rows, lengths, &mut sites)?;
    Ok(sites)
}
