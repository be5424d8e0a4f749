// The public calls for C and Rust (docs/RULES.md, C1 to C7): thin, with the same promises. A slice passes as a pointer and then a length in elements;
// the number is returned, and the place and the second place are written through the last two parameters.
#![tactic(auto)]

ghost use Rattle.std.specs.Prelude.{◌≡◌, pos, length};
ghost use Rattle.answers.specs.Verdict.{Meets};
ghost use Rattle.box_rules.specs.Box.{box_bytes};
ghost use Rattle.bit_rules.specs.Table.{table};
ghost use Rattle.plane_rules.specs.Dc.{read_dc, write_dc};
ghost use Rattle.plane_rules.specs.AcRead.{read_ac};
ghost use Rattle.plane_rules.specs.AcWrite.{write_ac};
ghost use Rattle.box_rules.specs.Text.{list_packets};
ghost use Rattle.merge_rules.specs.Call.{known, setting_of, merge_call};
ghost use Rattle.transform_rules.specs.Call.{inverse_transform};
ghost use Rattle.preview_rules.specs.Call.{preview_owes};

// C1, C3, C4: one box, assembled from its packets; the type's first byte is the highest of its number.
pub fn xt_box_bytes(
    file: &[u8],
    kind: u32,
    instance: u16,
    destination: &mut [u8],
    place: &mut u64,
    second: &mut u64,
) -> u32
    ensures { Meets 0 (box_bytes file.now kind instance (length destination.old))
        destination.old destination.new (record { number = result; place = place.new; second = second.new }) }
{
    let a = boxes::box_bytes(file, kind, instance, destination);
    *place = a.place as u64;
    *second = a.second as u64;
    a.number
}

// C1, C4: the listing of a file's packets as text.
pub fn xt_list_packets(file: &[u8], text: &mut [u8], place: &mut u64, second: &mut u64) -> u32
    ensures { Meets 0 (list_packets file.now (length text.old))
        text.old text.new (record { number = result; place = place.new; second = second.new }) }
{
    let a = listing_text::list_packets(file, text);
    *place = a.place as u64;
    *second = a.second as u64;
    a.number
}

// C1, C4: a DC plane read, level plane-1 values to level plane.
pub fn xt_read_dc_plane(
    plane: u32,
    blocks: usize,
    data: &[u8],
    values: &[i32],
    destination: &mut [i32],
    place: &mut u64,
    second: &mut u64,
) -> u32
    ensures { Meets (pos 0) (read_dc plane blocks values.now «data».now (length destination.old))
        destination.old destination.new (record { number = result; place = place.new; second = second.new }) }
{
    let a = dc_reader::read_dc(plane, blocks, data, values, destination);
    *place = a.place as u64;
    *second = a.second as u64;
    a.number
}

// C1, C4: a DC plane written.
pub fn xt_write_dc_plane(
    plane: u32,
    blocks: usize,
    values: &[i32],
    destination: &mut [u8],
    place: &mut u64,
    second: &mut u64,
) -> u32
    ensures { Meets 0 (write_dc plane blocks values.now (length destination.old))
        destination.old destination.new (record { number = result; place = place.new; second = second.new }) }
{
    let a = dc_writer::write_dc(plane, blocks, values, destination);
    *place = a.place as u64;
    *second = a.second as u64;
    a.number
}

// C1, C4: dequantising and the inverse transform.
pub fn xt_inverse_transform(
    refinement: u32,
    blocks: usize,
    values: &[i32],
    quantisers: &[u16],
    destination: &mut [i32],
    place: &mut u64,
    second: &mut u64,
) -> u32
    ensures { Meets (pos 0) (inverse_transform refinement blocks values.now quantisers.now (length destination.old))
        destination.old destination.new (record { number = result; place = place.new; second = second.new }) }
{
    let a = transform::inverse_transform(refinement, blocks, values, quantisers, destination);
    *place = a.place as u64;
    *second = a.second as u64;
    a.number
}

// C1, C4: how far a preview can be from the full picture at each place of a block, in samples, with so many planes left.
pub fn xt_preview_owes(
    left: u32,
    quantisers: &[u16],
    destination: &mut [u32],
    place: &mut u64,
    second: &mut u64,
) -> u32
    ensures { Meets 0 (preview_owes left quantisers.now (length destination.old)) destination.old destination.new (record { number = result; place = place.new; second = second.new }) }
{
    let a = previews::preview_owes(left, quantisers, destination);
    *place = a.place as u64;
    *second = a.second as u64;
    a.number
}

// C1, C4: an AC plane read.
pub fn xt_read_ac_plane(
    plane: u32,
    blocks: usize,
    counts: &[u8],
    codes: &[u8],
    data: &[u8],
    values: &[i32],
    destination: &mut [i32],
    place: &mut u64,
    second: &mut u64,
) -> u32
    ensures { Meets (pos 0) (read_ac plane blocks (table counts.now codes.now) values.now «data».now (length destination.old)) destination.old destination.new (record { number = result; place = place.new; second = second.new }) }
{
    let a = ac_reader::read_ac(plane, blocks, counts, codes, data, values, destination);
    *place = a.place as u64;
    *second = a.second as u64;
    a.number
}

// C1, C4: an AC plane written.
pub fn xt_write_ac_plane(
    plane: u32,
    blocks: usize,
    counts: &[u8],
    codes: &[u8],
    values: &[i32],
    destination: &mut [u8],
    place: &mut u64,
    second: &mut u64,
) -> u32
    ensures { Meets 0 (write_ac plane blocks (table counts.now codes.now) values.now (length destination.old))
        destination.old destination.new (record { number = result; place = place.new; second = second.new }) }
{
    let a = ac_writer::write_ac(plane, blocks, counts, codes, values, destination);
    *place = a.place as u64;
    *second = a.second as u64;
    a.number
}

// C1, C4: the merge to 9 to 16 bits.
pub fn xt_merge(
    rb: u32,
    rh: u32,
    rr: u32,
    components: u32,
    pixels: usize,
    tint: u32,
    curve: u32,
    matrixed: u32,
    added: u32,
    retint: u32,
    base: &[i32],
    residual: &[i32],
    table: &[u16],
    matrix: &[i16],
    destination: &mut [u16],
    place: &mut u64,
    second: &mut u64,
) -> u32
    ensures { Meets 0 (merge_call (known tint curve matrixed added retint)
        (setting_of rb rh rr components tint curve matrixed matrix.now added retint) pixels
        base.now residual.now table.now matrix.now (length destination.old))
        destination.old destination.new (record { number = result; place = place.new; second = second.new }) }
{
    let s = merge_rules::Setting {
        rb,
        rh,
        rr,
        components,
        base_transform: choices::colour(tint),
        curve: choices::curve_of(curve),
        matrix: choices::matrix_of(matrixed),
        weights: choices::weights_of(matrix),
        residual: choices::residual_of(added),
        residual_transform: choices::colour(retint),
    };
    let named = choices::known(tint, curve, matrixed, added, retint);
    let a = choices::merge_or_not(named, s, pixels, base, residual, table, matrix, destination);
    *place = a.place as u64;
    *second = a.second as u64;
    a.number
}
