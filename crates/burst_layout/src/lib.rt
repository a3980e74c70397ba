// The layout of a row of Cassini short bursts (SBDR): for each field of section 8.1 of source document
// 000, the place of its first byte in the row, how many bytes it has, and its type by section 8.2.
// Renders document 02, item 1: "the fields of section 8.1, each named by its position in that list,
// counted from 1". It reads no file: what a field's bytes say is left to the crates above.
#![tactic(auto)]

ghost use Rattle.answer.specs.Told.{told};
ghost use Rattle.std.specs.Prelude.{◌≡◌};
ghost use Rattle.burst_layout.specs.Layout.{layout, field_at};

use answer::{Refusal, Refused};

// A field's storage type in section 8.2: uint32, int32, float32, float64 and ASCII string.
#[derive(Clone, Copy, Debug, PartialEq, Eq)]
pub enum Storage {
    Unsigned,
    Signed,
    Float4,
    Float8,
    Text,
}

// A field's position in section 8.1, the place of its first byte in the row, counted from 0, how many
// bytes it has, and its type.
#[derive(Clone, Copy, Debug, PartialEq, Eq)]
pub struct Field {
    pub position: usize,
    pub place: usize,
    pub size: usize,
    pub stored: Storage,
}

// Section 8.1 in its order.
#[rattlefmt::skip]
static LAYOUT: [Field; 255] = [
    Field { position: 1, place: 0, size: 4, stored: Storage::Unsigned }, // sync
    Field { position: 2, place: 4, size: 4, stored: Storage::Unsigned }, // spacecraft_clock
    Field { position: 3, place: 8, size: 4, stored: Storage::Unsigned }, // burst_id
    Field { position: 4, place: 12, size: 4, stored: Storage::Float4 }, // cds_pickup_rate
    Field { position: 5, place: 16, size: 4, stored: Storage::Float4 }, // burst_start_time
    Field { position: 6, place: 20, size: 4, stored: Storage::Float4 }, // header_tfi
    Field { position: 7, place: 24, size: 4, stored: Storage::Unsigned }, // header_tnc
    Field { position: 8, place: 28, size: 4, stored: Storage::Unsigned }, // header_typ
    Field { position: 9, place: 32, size: 4, stored: Storage::Unsigned }, // header_tca
    Field { position: 10, place: 36, size: 4, stored: Storage::Unsigned }, // header_tcb
    Field { position: 11, place: 40, size: 4, stored: Storage::Unsigned }, // header_tcc
    Field { position: 12, place: 44, size: 4, stored: Storage::Unsigned }, // pwri
    Field { position: 13, place: 48, size: 4, stored: Storage::Unsigned }, // vicc
    Field { position: 14, place: 52, size: 4, stored: Storage::Unsigned }, // vimc
    Field { position: 15, place: 56, size: 4, stored: Storage::Unsigned }, // tail_len
    Field { position: 16, place: 60, size: 4, stored: Storage::Unsigned }, // tail_id
    Field { position: 17, place: 64, size: 4, stored: Storage::Unsigned }, // sab_counter
    Field { position: 18, place: 68, size: 4, stored: Storage::Unsigned }, // sab_len
    Field { position: 19, place: 72, size: 4, stored: Storage::Unsigned }, // fswm
    Field { position: 20, place: 76, size: 4, stored: Storage::Unsigned }, // fswc
    Field { position: 21, place: 80, size: 4, stored: Storage::Unsigned }, // ctbc
    Field { position: 22, place: 84, size: 4, stored: Storage::Unsigned }, // rx_window_pri
    Field { position: 23, place: 88, size: 4, stored: Storage::Unsigned }, // ctps
    Field { position: 24, place: 92, size: 4, stored: Storage::Unsigned }, // ctbe
    Field { position: 25, place: 96, size: 4, stored: Storage::Unsigned }, // ctps_ctbe
    Field { position: 26, place: 100, size: 4, stored: Storage::Unsigned }, // header_end
    Field { position: 27, place: 104, size: 4, stored: Storage::Unsigned }, // slow_tfi
    Field { position: 28, place: 108, size: 4, stored: Storage::Unsigned }, // data_take_number
    Field { position: 29, place: 112, size: 4, stored: Storage::Unsigned }, // slow_typ
    Field { position: 30, place: 116, size: 4, stored: Storage::Unsigned }, // calibration_source
    Field { position: 31, place: 120, size: 4, stored: Storage::Unsigned }, // radar_mode
    Field { position: 32, place: 124, size: 4, stored: Storage::Unsigned }, // sin
    Field { position: 33, place: 128, size: 4, stored: Storage::Unsigned }, // bem
    Field { position: 34, place: 132, size: 4, stored: Storage::Unsigned }, // baq_mode
    Field { position: 35, place: 136, size: 4, stored: Storage::Float4 }, // tro
    Field { position: 36, place: 140, size: 4, stored: Storage::Float4 }, // receiver_bandwidth
    Field { position: 37, place: 144, size: 4, stored: Storage::Float4 }, // adc_rate
    Field { position: 38, place: 148, size: 4, stored: Storage::Float4 }, // at1_tot
    Field { position: 39, place: 152, size: 4, stored: Storage::Float4 }, // at3_tot
    Field { position: 40, place: 156, size: 4, stored: Storage::Float4 }, // at4_tot
    Field { position: 41, place: 160, size: 4, stored: Storage::Unsigned }, // at1_each
    Field { position: 42, place: 164, size: 4, stored: Storage::Unsigned }, // at3_each
    Field { position: 43, place: 168, size: 4, stored: Storage::Unsigned }, // at4_each
    Field { position: 44, place: 172, size: 4, stored: Storage::Float4 }, // antenna_int_period
    Field { position: 45, place: 176, size: 4, stored: Storage::Float4 }, // chirp_time_step
    Field { position: 46, place: 180, size: 4, stored: Storage::Unsigned }, // num_rad_meas
    Field { position: 47, place: 184, size: 4, stored: Storage::Unsigned }, // num_chirp_steps
    Field { position: 48, place: 188, size: 4, stored: Storage::Float4 }, // chirp_length
    Field { position: 49, place: 192, size: 4, stored: Storage::Float4 }, // chirp_freq_step
    Field { position: 50, place: 196, size: 4, stored: Storage::Float4 }, // fast_tfi
    Field { position: 51, place: 200, size: 4, stored: Storage::Unsigned }, // fin
    Field { position: 52, place: 204, size: 4, stored: Storage::Unsigned }, // fast_type
    Field { position: 53, place: 208, size: 4, stored: Storage::Unsigned }, // num_pulses
    Field { position: 54, place: 212, size: 4, stored: Storage::Unsigned }, // bii
    Field { position: 55, place: 216, size: 4, stored: Storage::Float4 }, // burst_period
    Field { position: 56, place: 220, size: 4, stored: Storage::Float4 }, // pri
    Field { position: 57, place: 224, size: 4, stored: Storage::Float4 }, // rx_window_delay
    Field { position: 58, place: 228, size: 4, stored: Storage::Float4 }, // chirp_start_freq
    Field { position: 59, place: 232, size: 4, stored: Storage::Unsigned }, // iebtth
    Field { position: 60, place: 236, size: 4, stored: Storage::Unsigned }, // iebtll
    Field { position: 61, place: 240, size: 4, stored: Storage::Unsigned }, // bgcalls
    Field { position: 62, place: 244, size: 4, stored: Storage::Unsigned }, // delvmn
    Field { position: 63, place: 248, size: 4, stored: Storage::Unsigned }, // delvda
    Field { position: 64, place: 252, size: 4, stored: Storage::Unsigned }, // delvyr
    Field { position: 65, place: 256, size: 4, stored: Storage::Unsigned }, // raw_res_load_meas
    Field { position: 66, place: 260, size: 4, stored: Storage::Unsigned }, // raw_antenna_meas
    Field { position: 67, place: 264, size: 4, stored: Storage::Unsigned }, // raw_noise_diode_meas
    Field { position: 68, place: 268, size: 4, stored: Storage::Unsigned }, // eout
    Field { position: 69, place: 272, size: 4, stored: Storage::Unsigned }, // subr
    Field { position: 70, place: 276, size: 4, stored: Storage::Unsigned }, // space_craft_time
    Field { position: 71, place: 280, size: 4, stored: Storage::Float4 }, // noise_diode_int_period
    Field { position: 72, place: 284, size: 4, stored: Storage::Float4 }, // res_load_int_period
    Field { position: 73, place: 288, size: 4, stored: Storage::Float4 }, // fwdtmp
    Field { position: 74, place: 292, size: 4, stored: Storage::Float4 }, // be1tmp
    Field { position: 75, place: 296, size: 4, stored: Storage::Float4 }, // be2tmp
    Field { position: 76, place: 300, size: 4, stored: Storage::Float4 }, // be3tmp
    Field { position: 77, place: 304, size: 4, stored: Storage::Float4 }, // be4tmp
    Field { position: 78, place: 308, size: 4, stored: Storage::Float4 }, // be5tmp
    Field { position: 79, place: 312, size: 4, stored: Storage::Float4 }, // diptmp
    Field { position: 80, place: 316, size: 4, stored: Storage::Float4 }, // rlotmp
    Field { position: 81, place: 320, size: 4, stored: Storage::Float4 }, // tadcal1
    Field { position: 82, place: 324, size: 4, stored: Storage::Float4 }, // nsdtmp
    Field { position: 83, place: 328, size: 4, stored: Storage::Float4 }, // lnatmp
    Field { position: 84, place: 332, size: 4, stored: Storage::Float4 }, // evdtmp
    Field { position: 85, place: 336, size: 4, stored: Storage::Float4 }, // mratmp
    Field { position: 86, place: 340, size: 4, stored: Storage::Float4 }, // mruttm
    Field { position: 87, place: 344, size: 4, stored: Storage::Float4 }, // dcgttm
    Field { position: 88, place: 348, size: 4, stored: Storage::Float4 }, // cucttm
    Field { position: 89, place: 352, size: 4, stored: Storage::Float4 }, // twttmp
    Field { position: 90, place: 356, size: 4, stored: Storage::Float4 }, // epctmp
    Field { position: 91, place: 360, size: 4, stored: Storage::Float4 }, // tw1ttm
    Field { position: 92, place: 364, size: 4, stored: Storage::Float4 }, // ep1ttm
    Field { position: 93, place: 368, size: 4, stored: Storage::Float4 }, // p_stmp
    Field { position: 94, place: 372, size: 4, stored: Storage::Float4 }, // p_sttm
    Field { position: 95, place: 376, size: 4, stored: Storage::Float4 }, // fguttm
    Field { position: 96, place: 380, size: 4, stored: Storage::Float4 }, // tadcal4
    Field { position: 97, place: 384, size: 4, stored: Storage::Float4 }, // esstmp
    Field { position: 98, place: 388, size: 4, stored: Storage::Float4 }, // wgb1t1
    Field { position: 99, place: 392, size: 4, stored: Storage::Float4 }, // wgb3t1
    Field { position: 100, place: 396, size: 4, stored: Storage::Float4 }, // wgb3t2
    Field { position: 101, place: 400, size: 4, stored: Storage::Float4 }, // wgb3t3
    Field { position: 102, place: 404, size: 4, stored: Storage::Float4 }, // wgb5t1
    Field { position: 103, place: 408, size: 4, stored: Storage::Float4 }, // pcutmp
    Field { position: 104, place: 412, size: 4, stored: Storage::Float4 }, // adctmp
    Field { position: 105, place: 416, size: 4, stored: Storage::Float4 }, // tadcal2
    Field { position: 106, place: 420, size: 4, stored: Storage::Float4 }, // ecltmp
    Field { position: 107, place: 424, size: 4, stored: Storage::Float4 }, // cputmp
    Field { position: 108, place: 428, size: 4, stored: Storage::Float4 }, // memtmp
    Field { position: 109, place: 432, size: 4, stored: Storage::Float4 }, // sadctmp
    Field { position: 110, place: 436, size: 4, stored: Storage::Float4 }, // tadcal3
    Field { position: 111, place: 440, size: 4, stored: Storage::Float4 }, // frwdpw
    Field { position: 112, place: 444, size: 4, stored: Storage::Float4 }, // dcgmon
    Field { position: 113, place: 448, size: 4, stored: Storage::Float4 }, // lpltlm
    Field { position: 114, place: 452, size: 4, stored: Storage::Float4 }, // nsdcur
    Field { position: 115, place: 456, size: 4, stored: Storage::Float4 }, // hpapsm
    Field { position: 116, place: 460, size: 4, stored: Storage::Float4 }, // catcur
    Field { position: 117, place: 464, size: 4, stored: Storage::Float4 }, // p_smon
    Field { position: 118, place: 468, size: 4, stored: Storage::Float4 }, // svlsta
    Field { position: 119, place: 472, size: 4, stored: Storage::Float4 }, // usotmp
    Field { position: 120, place: 476, size: 4, stored: Storage::Float4 }, // cpbnkv
    Field { position: 121, place: 480, size: 4, stored: Storage::Float4 }, // essvlt
    Field { position: 122, place: 484, size: 4, stored: Storage::Float4 }, // tadcal5
    Field { position: 123, place: 488, size: 4, stored: Storage::Float4 }, // pcu5v_pos
    Field { position: 124, place: 492, size: 4, stored: Storage::Float4 }, // pcu5i_pos
    Field { position: 125, place: 496, size: 4, stored: Storage::Float4 }, // pcu5v_neg
    Field { position: 126, place: 500, size: 4, stored: Storage::Float4 }, // pcu5i_neg
    Field { position: 127, place: 504, size: 4, stored: Storage::Float4 }, // pcu15v_pos
    Field { position: 128, place: 508, size: 4, stored: Storage::Float4 }, // pcu15i_pos
    Field { position: 129, place: 512, size: 4, stored: Storage::Float4 }, // pcu15v_neg
    Field { position: 130, place: 516, size: 4, stored: Storage::Float4 }, // pcu15i_neg
    Field { position: 131, place: 520, size: 4, stored: Storage::Float4 }, // pcu12v_neg
    Field { position: 132, place: 524, size: 4, stored: Storage::Float4 }, // pcu12i_neg
    Field { position: 133, place: 528, size: 4, stored: Storage::Float4 }, // pcucur
    Field { position: 134, place: 532, size: 4, stored: Storage::Float4 }, // pllmon
    Field { position: 135, place: 536, size: 4, stored: Storage::Float4 }, // ctu5i
    Field { position: 136, place: 540, size: 4, stored: Storage::Float4 }, // tadcal6
    Field { position: 137, place: 544, size: 4, stored: Storage::Float4 }, // pcu9v_pos
    Field { position: 138, place: 548, size: 4, stored: Storage::Float4 }, // pcu9i_pos
    Field { position: 139, place: 552, size: 4, stored: Storage::Float4 }, // pcu9v_neg
    Field { position: 140, place: 556, size: 4, stored: Storage::Float4 }, // pcu9i_neg
    Field { position: 141, place: 560, size: 4, stored: Storage::Float4 }, // tadcal7
    Field { position: 142, place: 564, size: 4, stored: Storage::Float4 }, // shpttm
    Field { position: 143, place: 568, size: 4, stored: Storage::Unsigned }, // num_bursts_in_flight
    Field { position: 144, place: 572, size: 4, stored: Storage::Unsigned }, // raw_active_mode_length
    Field { position: 145, place: 576, size: 4, stored: Storage::Float4 }, // raw_active_mode_rms
    Field { position: 146, place: 580, size: 4, stored: Storage::Unsigned }, // engineer_qual_flag
    Field { position: 147, place: 584, size: 8, stored: Storage::Float8 }, // t_sc_clock
    Field { position: 148, place: 592, size: 8, stored: Storage::Float8 }, // t_ephem_time
    Field { position: 149, place: 600, size: 24, stored: Storage::Text }, // t_utc_ymd
    Field { position: 150, place: 624, size: 24, stored: Storage::Text }, // t_utc_doy
    Field { position: 151, place: 648, size: 8, stored: Storage::Float8 }, // transmit_time_offset
    Field { position: 152, place: 656, size: 8, stored: Storage::Float8 }, // time_from_closest_approach
    Field { position: 153, place: 664, size: 8, stored: Storage::Float8 }, // time_from_epoch
    Field { position: 154, place: 672, size: 16, stored: Storage::Text }, // target_name
    Field { position: 155, place: 688, size: 24, stored: Storage::Text }, // tbf_frame_name
    Field { position: 156, place: 712, size: 8, stored: Storage::Float8 }, // pole_right_ascension
    Field { position: 157, place: 720, size: 8, stored: Storage::Float8 }, // pole_declination
    Field { position: 158, place: 728, size: 8, stored: Storage::Float8 }, // target_rotation_rate
    Field { position: 159, place: 736, size: 8, stored: Storage::Float8 }, // target_rotation_angle
    Field { position: 160, place: 744, size: 4, stored: Storage::Float4 }, // scwg_tmp
    Field { position: 161, place: 748, size: 4, stored: Storage::Float4 }, // feed_tmp
    Field { position: 162, place: 752, size: 4, stored: Storage::Float4 }, // hga_tmp
    Field { position: 163, place: 756, size: 4, stored: Storage::Unsigned }, // beam_number
    Field { position: 164, place: 760, size: 8, stored: Storage::Float8 }, // sc_pos_j2000_x
    Field { position: 165, place: 768, size: 8, stored: Storage::Float8 }, // sc_pos_j2000_y
    Field { position: 166, place: 776, size: 8, stored: Storage::Float8 }, // sc_pos_j2000_z
    Field { position: 167, place: 784, size: 8, stored: Storage::Float8 }, // sc_vel_j2000_x
    Field { position: 168, place: 792, size: 8, stored: Storage::Float8 }, // sc_vel_j2000_y
    Field { position: 169, place: 800, size: 8, stored: Storage::Float8 }, // sc_vel_j2000_z
    Field { position: 170, place: 808, size: 8, stored: Storage::Float8 }, // sc_pos_target_x
    Field { position: 171, place: 816, size: 8, stored: Storage::Float8 }, // sc_pos_target_y
    Field { position: 172, place: 824, size: 8, stored: Storage::Float8 }, // sc_pos_target_z
    Field { position: 173, place: 832, size: 8, stored: Storage::Float8 }, // sc_vel_target_x
    Field { position: 174, place: 840, size: 8, stored: Storage::Float8 }, // sc_vel_target_y
    Field { position: 175, place: 848, size: 8, stored: Storage::Float8 }, // sc_vel_target_z
    Field { position: 176, place: 856, size: 8, stored: Storage::Float8 }, // sc_x_axis_j2000_x
    Field { position: 177, place: 864, size: 8, stored: Storage::Float8 }, // sc_x_axis_j2000_y
    Field { position: 178, place: 872, size: 8, stored: Storage::Float8 }, // sc_x_axis_j2000_z
    Field { position: 179, place: 880, size: 8, stored: Storage::Float8 }, // sc_y_axis_j2000_x
    Field { position: 180, place: 888, size: 8, stored: Storage::Float8 }, // sc_y_axis_j2000_y
    Field { position: 181, place: 896, size: 8, stored: Storage::Float8 }, // sc_y_axis_j2000_z
    Field { position: 182, place: 904, size: 8, stored: Storage::Float8 }, // sc_z_axis_j2000_x
    Field { position: 183, place: 912, size: 8, stored: Storage::Float8 }, // sc_z_axis_j2000_y
    Field { position: 184, place: 920, size: 8, stored: Storage::Float8 }, // sc_z_axis_j2000_z
    Field { position: 185, place: 928, size: 8, stored: Storage::Float8 }, // sc_x_axis_target_x
    Field { position: 186, place: 936, size: 8, stored: Storage::Float8 }, // sc_x_axis_target_y
    Field { position: 187, place: 944, size: 8, stored: Storage::Float8 }, // sc_x_axis_target_z
    Field { position: 188, place: 952, size: 8, stored: Storage::Float8 }, // sc_y_axis_target_x
    Field { position: 189, place: 960, size: 8, stored: Storage::Float8 }, // sc_y_axis_target_y
    Field { position: 190, place: 968, size: 8, stored: Storage::Float8 }, // sc_y_axis_target_z
    Field { position: 191, place: 976, size: 8, stored: Storage::Float8 }, // sc_z_axis_target_x
    Field { position: 192, place: 984, size: 8, stored: Storage::Float8 }, // sc_z_axis_target_y
    Field { position: 193, place: 992, size: 8, stored: Storage::Float8 }, // sc_z_axis_target_z
    Field { position: 194, place: 1000, size: 8, stored: Storage::Float8 }, // rot_vel_j2000_x
    Field { position: 195, place: 1008, size: 8, stored: Storage::Float8 }, // rot_vel_j2000_y
    Field { position: 196, place: 1016, size: 8, stored: Storage::Float8 }, // rot_vel_j2000_z
    Field { position: 197, place: 1024, size: 8, stored: Storage::Float8 }, // rot_vel_target_x
    Field { position: 198, place: 1032, size: 8, stored: Storage::Float8 }, // rot_vel_target_y
    Field { position: 199, place: 1040, size: 8, stored: Storage::Float8 }, // rot_vel_target_z
    Field { position: 200, place: 1048, size: 4, stored: Storage::Float4 }, // norm_cnt_rl
    Field { position: 201, place: 1052, size: 4, stored: Storage::Float4 }, // norm_cnt_nd
    Field { position: 202, place: 1056, size: 4, stored: Storage::Float4 }, // norm_cnt_radio
    Field { position: 203, place: 1060, size: 4, stored: Storage::Signed }, // science_qual_flag
    Field { position: 204, place: 1064, size: 4, stored: Storage::Float4 }, // system_gain
    Field { position: 205, place: 1068, size: 4, stored: Storage::Float4 }, // antenna_temp
    Field { position: 206, place: 1072, size: 4, stored: Storage::Float4 }, // receiver_temp
    Field { position: 207, place: 1076, size: 4, stored: Storage::Float4 }, // ant_temp_std
    Field { position: 208, place: 1080, size: 4, stored: Storage::Float4 }, // pass_geom_time_offset
    Field { position: 209, place: 1084, size: 4, stored: Storage::Float4 }, // pass_pol_angle
    Field { position: 210, place: 1088, size: 4, stored: Storage::Float4 }, // pass_emission_angle
    Field { position: 211, place: 1092, size: 4, stored: Storage::Float4 }, // pass_azimuth_angle
    Field { position: 212, place: 1096, size: 4, stored: Storage::Float4 }, // pass_centroid_lon
    Field { position: 213, place: 1100, size: 4, stored: Storage::Float4 }, // pass_centroid_lat
    Field { position: 214, place: 1104, size: 4, stored: Storage::Float4 }, // pass_major_width
    Field { position: 215, place: 1108, size: 4, stored: Storage::Float4 }, // pass_minor_width
    Field { position: 216, place: 1112, size: 4, stored: Storage::Float4 }, // pass_ellipse_pt1_lon
    Field { position: 217, place: 1116, size: 4, stored: Storage::Float4 }, // pass_ellipse_pt2_lon
    Field { position: 218, place: 1120, size: 4, stored: Storage::Float4 }, // pass_ellipse_pt3_lon
    Field { position: 219, place: 1124, size: 4, stored: Storage::Float4 }, // pass_ellipse_pt4_lon
    Field { position: 220, place: 1128, size: 4, stored: Storage::Float4 }, // pass_ellipse_pt1_lat
    Field { position: 221, place: 1132, size: 4, stored: Storage::Float4 }, // pass_ellipse_pt2_lat
    Field { position: 222, place: 1136, size: 4, stored: Storage::Float4 }, // pass_ellipse_pt3_lat
    Field { position: 223, place: 1140, size: 4, stored: Storage::Float4 }, // pass_ellipse_pt4_lat
    Field { position: 224, place: 1144, size: 4, stored: Storage::Float4 }, // num_pulses_received
    Field { position: 225, place: 1148, size: 4, stored: Storage::Float4 }, // total_echo_energy
    Field { position: 226, place: 1152, size: 4, stored: Storage::Float4 }, // noise_echo_energy
    Field { position: 227, place: 1156, size: 4, stored: Storage::Float4 }, // x_factor
    Field { position: 228, place: 1160, size: 4, stored: Storage::Float4 }, // sigma0_uncorrected
    Field { position: 229, place: 1164, size: 4, stored: Storage::Float4 }, // sigma0_corrected
    Field { position: 230, place: 1168, size: 4, stored: Storage::Float4 }, // sigma0_uncorrected_std
    Field { position: 231, place: 1172, size: 4, stored: Storage::Float4 }, // surface_height
    Field { position: 232, place: 1176, size: 4, stored: Storage::Float4 }, // surf_ht_std
    Field { position: 233, place: 1180, size: 4, stored: Storage::Float4 }, // act_geom_time_offset
    Field { position: 234, place: 1184, size: 4, stored: Storage::Float4 }, // act_pol_angle
    Field { position: 235, place: 1188, size: 4, stored: Storage::Float4 }, // act_incidence_angle
    Field { position: 236, place: 1192, size: 4, stored: Storage::Float4 }, // act_azimuth_angle
    Field { position: 237, place: 1196, size: 4, stored: Storage::Float4 }, // act_centroid_lon
    Field { position: 238, place: 1200, size: 4, stored: Storage::Float4 }, // act_centroid_lat
    Field { position: 239, place: 1204, size: 4, stored: Storage::Float4 }, // act_major_width
    Field { position: 240, place: 1208, size: 4, stored: Storage::Float4 }, // act_minor_width
    Field { position: 241, place: 1212, size: 4, stored: Storage::Float4 }, // act_ellipse_pt1_lon
    Field { position: 242, place: 1216, size: 4, stored: Storage::Float4 }, // act_ellipse_pt2_lon
    Field { position: 243, place: 1220, size: 4, stored: Storage::Float4 }, // act_ellipse_pt3_lon
    Field { position: 244, place: 1224, size: 4, stored: Storage::Float4 }, // act_ellipse_pt4_lon
    Field { position: 245, place: 1228, size: 4, stored: Storage::Float4 }, // act_ellipse_pt1_lat
    Field { position: 246, place: 1232, size: 4, stored: Storage::Float4 }, // act_ellipse_pt2_lat
    Field { position: 247, place: 1236, size: 4, stored: Storage::Float4 }, // act_ellipse_pt3_lat
    Field { position: 248, place: 1240, size: 4, stored: Storage::Float4 }, // act_ellipse_pt4_lat
    Field { position: 249, place: 1244, size: 4, stored: Storage::Float4 }, // altimeter_profile_range_start
    Field { position: 250, place: 1248, size: 4, stored: Storage::Float4 }, // altimeter_profile_range_step
    Field { position: 251, place: 1252, size: 4, stored: Storage::Unsigned }, // altimeter_profile_length
    Field { position: 252, place: 1256, size: 4, stored: Storage::Float4 }, // sar_azimuth_res
    Field { position: 253, place: 1260, size: 4, stored: Storage::Float4 }, // sar_range_res
    Field { position: 254, place: 1264, size: 4, stored: Storage::Float4 }, // sar_centroid_bidr_lon
    Field { position: 255, place: 1268, size: 4, stored: Storage::Float4 }, // sar_centroid_bidr_lat
];

// The fields in their order, lent and not copied.
#[tactic(auto, unfolding(crate::specs::Layout::layout))]
fn fields() -> &'static [Field]
    ensures { result.now ≡ layout }
{
    &LAYOUT
}

// The field at a position of section 8.1, counted from 1; a position that the section does not have is
// refused.
pub fn line_of(position: usize) -> Result<Field, Refused>
    ensures { told result ≡ field_at position }
{
    let unknown = Refused(Refusal::Unknown, 0);
    let i = position.checked_sub(1).ok_or(unknown)?;
    fields().get(i).copied().ok_or(unknown)
}
